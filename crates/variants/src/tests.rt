// Variants written out by hand.

use crate::Variant;
use std::test::Fail;

// Two greedy sets, one within the other, beside one that visits all.
const GREEDY: &[u8] = b"kind a b c d e\n\
      attr sub/role - - - -\n\
      text open - - - -\n\
      must 0 2 - - -\n\
      permit 1 3 - - -\n\
      item 4 - - - -\n\
      true - - - - -\n\
      deny 6 - - - -\n\
      item 7 5 - - -\n\
      true - - - - -\n\
      set d-over.greedy 9 8 - -\n\
      item 10 - - - -\n\
      false - - - - -\n\
      permit 12 - - - -\n\
      item 13 - - - -\n\
      true - - - - -\n\
      set one-app.all 15 14 - -\n\
      item 16 11 - - -\n\
      true - - - - -\n\
      num 4 - - - -\n\
      may 7 19 - - -\n\
      set first-app.greedy 18 17 20 -\n";

const ALL: &[u8] = b"kind a b c d e\n\
      attr sub/role - - - -\n\
      text open - - - -\n\
      must 0 2 - - -\n\
      permit 1 3 - - -\n\
      item 4 - - - -\n\
      true - - - - -\n\
      deny 6 - - - -\n\
      item 7 5 - - -\n\
      true - - - - -\n\
      set d-over.all 9 8 - -\n\
      item 10 - - - -\n\
      false - - - - -\n\
      permit 12 - - - -\n\
      item 13 - - - -\n\
      true - - - - -\n\
      set one-app.all 15 14 - -\n\
      item 16 11 - - -\n\
      true - - - - -\n\
      num 4 - - - -\n\
      may 7 19 - - -\n\
      set first-app.all 18 17 20 -\n";

// A name and a text may be words of a strategy.
const NO_SET: &[u8] = b"kind a b c d e\n\
      attr greedy - - - -\n\
      text greedy - - - -\n\
      equal 1 2 - - -\n\
      deny 3 - - - -\n";

// Line 2 is named twice.
const REFUSED: &[u8] = b"kind a b c d e\n\
      true - - - - -\n\
      permit 1 - - - -\n\
      item 2 - - - -\n\
      item 2 3 - - -\n\
      set d-over.greedy 1 4 - -\n";

#[test]
fn greedy_sets(runtime: HostRuntime) -> Result<(), Fail> {
    let mut variant = Variant::new(runtime.alloc())?;
    assert_eq!(runtime; variant.write(GREEDY), Some(ALL));
    Ok(())
}

#[test]
fn no_greedy_set(runtime: HostRuntime) -> Result<(), Fail> {
    let mut variant = Variant::new(runtime.alloc())?;
    assert_eq!(runtime; variant.write(ALL), Some(ALL));
    assert_eq!(runtime; variant.write(NO_SET), Some(NO_SET));
    Ok(())
}

#[test]
fn refused_file(runtime: HostRuntime) -> Result<(), Fail> {
    let mut variant = Variant::new(runtime.alloc())?;
    assert_eq!(runtime; variant.write(REFUSED), None);
    assert_eq!(runtime; variant.write(b""), None);
    Ok(())
}

// Neither an earlier variant nor a refusal leaves anything behind.
#[test]
fn written_again(runtime: HostRuntime) -> Result<(), Fail> {
    let mut variant = Variant::new(runtime.alloc())?;
    for (file, expected) in [
        (GREEDY, Some(ALL)),
        (REFUSED, None),
        (NO_SET, Some(NO_SET)),
        (GREEDY, Some(ALL)),
    ] {
        assert_eq!(runtime; variant.write(file), expected);
    }
    Ok(())
}
