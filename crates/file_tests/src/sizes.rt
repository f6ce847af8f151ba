// Files of the most bytes.

use crate::built::repeated;
use crate::case::{Case, Counts, POLICY, READINGS, Refusal, check};
use std::test::Fail;

// What has no place in a file is reported at line 0 and field 0.
const TOO_SMALL: Refusal = Refusal(11, 3, 0, 0);

// A readings file may have 32,768 bytes; one of more is refused with 11.
#[test]
fn large_readings(runtime: HostRuntime) -> Result<(), Fail> {
    let heap = runtime.alloc();
    let mut file = repeated(heap, b"valve\n", b"4\n", 16_381)?;
    assert_eq!(runtime; file.len(), 32_768);
    let expected = Counts {
        lines: 2,
        names: 1,
        rows: 16_381,
    };
    check(
        &runtime,
        heap,
        &Case {
            title: "32,768 bytes",
            policy: POLICY,
            readings: file.as_slice(),
            expected: Ok(expected),
        },
    )?;
    file.push(b'x')?;
    check(
        &runtime,
        heap,
        &Case {
            title: "32,769 bytes",
            policy: POLICY,
            readings: file.as_slice(),
            expected: Err(TOO_SMALL),
        },
    )
}

// So may a policy file, and the size comes before what the file holds: 32,768 bytes are refused for their line 0, and one
// byte more with 11; 2,183 lines for their count, and one more with 11.
#[test]
fn large_policies(runtime: HostRuntime) -> Result<(), Fail> {
    let heap = runtime.alloc();
    let most = repeated(heap, b"", b"x", 32_768)?;
    let over = repeated(heap, b"", b"x", 32_769)?;
    let lines = repeated(heap, b"kind a b c d e\n", b"true - - - - -\n", 2_183)?;
    let more = repeated(heap, b"kind a b c d e\n", b"true - - - - -\n", 2_184)?;
    let cases = [
        ("32,768 bytes", most.as_slice(), Refusal(1, 1, 0, 0)),
        ("32,769 bytes", over.as_slice(), TOO_SMALL),
        ("32,760 bytes", lines.as_slice(), Refusal(7, 2, 257, 0)),
        ("32,775 bytes", more.as_slice(), TOO_SMALL),
    ];
    for (title, policy, refusal) in cases {
        let case = Case {
            title,
            policy,
            readings: READINGS,
            expected: Err(refusal),
        };
        check(&runtime, heap, &case)?;
    }
    Ok(())
}

// The policy file comes first, its size before its faults; then the readings file likewise.
#[test]
fn large_files_in_turn(runtime: HostRuntime) -> Result<(), Fail> {
    let heap = runtime.alloc();
    let over = repeated(heap, b"", b"x", 32_769)?;
    let over = over.as_slice();
    let no_lines = b"kind a b c d e\n".as_slice();
    let cases = [
        ("no line 0", b"".as_slice(), over, Refusal(1, 1, 0, 0)),
        ("line 0 alone", no_lines, over, Refusal(7, 2, 1, 0)),
        ("readings without a name", POLICY, over, TOO_SMALL),
        ("both at fault", over, b"".as_slice(), TOO_SMALL),
        ("both too large", over, over, TOO_SMALL),
    ];
    for (title, policy, readings, refusal) in cases {
        let case = Case {
            title,
            policy,
            readings,
            expected: Err(refusal),
        };
        check(&runtime, heap, &case)?;
    }
    Ok(())
}
