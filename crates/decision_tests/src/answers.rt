// Whole answers: a decision and the actions of its duties.

use deciding::{Answer, Evaluator};
use pair::{Pair, check_pair};
use policy::Room;
use readings::TableRoom;
use std::alloc::Global;
use std::process::Abort;
use std::test::Fail;

const GROWER: &[u8] = b"kind a b c d e\n\
      attr sub/role - - - -\n\
      text grower - - - -\n\
      equal 1 2 - - -\n\
      attr res/valve - - - -\n\
      must 1 4 - - -\n\
      permit 3 5 - - -\n";

const GROWER_READINGS: &[u8] = b"sub/role res/valve\ngrower 4\npicker 4\ngrower -\n";

// Two rules that permit, each with a duty, beneath a set with a duty of its own.
// Written out here and again below, with one word changed, so that each file can be read as a whole.
const TWO_PERMITS: &[u8] = b"kind a b c d e\n\
      true - - - - -\n\
      num 1 - - - -\n\
      must 1 2 - - -\n\
      permit 1 3 - - -\n\
      item 4 - - - -\n\
      true - - - - -\n\
      num 2 - - - -\n\
      may 2 7 - - -\n\
      permit 6 8 - - -\n\
      item 9 5 - - -\n\
      true - - - - -\n\
      num 3 - - - -\n\
      must 3 12 - - -\n\
      set p-over.all 11 10 13 -\n";

// The same, but that the set stops at the first permit.
const FIRST_PERMIT: &[u8] = b"kind a b c d e\n\
      true - - - - -\n\
      num 1 - - - -\n\
      must 1 2 - - -\n\
      permit 1 3 - - -\n\
      item 4 - - - -\n\
      true - - - - -\n\
      num 2 - - - -\n\
      may 2 7 - - -\n\
      permit 6 8 - - -\n\
      item 9 5 - - -\n\
      true - - - - -\n\
      num 3 - - - -\n\
      must 3 12 - - -\n\
      set p-over.greedy 11 10 13 -\n";

// Each permits where its first line is true; they read different names.
const X_PERMITS: &[u8] = b"kind a b c d e\nattr x - - - -\npermit 1 - - - -\n";

const Y_PERMITS: &[u8] = b"kind a b c d e\nattr y - - - -\npermit 1 - - - -\n";

// The memory that answers are worked in.
#[derive(Drop)]
struct Deciding {
    evaluator: Evaluator,
    answer: Answer,
}

impl Deciding {
    fn new(heap: Global) -> Result<Deciding, Fail> {
        let evaluator = Evaluator::new(heap)?;
        let answer = Answer::new(heap)?;
        Ok(Deciding { evaluator, answer })
    }

    // Adds the rows' decisions and their duties' actions, a space before each.
    fn tell(&mut self, heap: Global, pair: &Pair, text: &mut String) -> Result<(), Fail> {
        for row in pair.readings.rows() {
            self.evaluator
                .respond_to_row(&pair.policy, &row, &mut self.answer);
            tell(heap, &self.answer, text)?;
        }
        Ok(())
    }
}

fn tell(heap: Global, answer: &Answer, text: &mut String) -> Result<(), Fail> {
    let decision = answer.decision();
    text.push_str(format!(in heap; " {decision}")?.as_str())?;
    for duty in answer.duties() {
        let action = duty.action;
        text.push_str(format!(in heap; " {action}")?.as_str())?;
    }
    Ok(())
}

fn accepted(heap: Global, policy: &[u8], readings: &[u8]) -> Result<Pair, Fail> {
    let room = Room::new(heap)?;
    let table = TableRoom::new(heap)?;
    match check_pair(room, table, policy, readings) {
        Ok(pair) => Ok(pair),
        Err(_) => Err(Fail::new("the pair was not accepted")),
    }
}

fn check_told(
    rt: &impl Abort,
    heap: Global,
    policy: &[u8],
    readings: &[u8],
    expected: &str,
) -> Result<(), Fail> {
    let pair = accepted(heap, policy, readings)?;
    let mut text = String::new(heap);
    Deciding::new(heap)?.tell(heap, &pair, &mut text)?;
    assert!(rt; text.as_str() == expected);
    Ok(())
}

#[test]
fn example_pair(rt: HostRuntime) -> Result<(), Fail> {
    check_told(
        &rt,
        rt.alloc(),
        GROWER,
        GROWER_READINGS,
        " permit 1 not-app indet",
    )
}

#[test]
fn all_and_greedy(rt: HostRuntime) -> Result<(), Fail> {
    check_told(&rt, rt.alloc(), TWO_PERMITS, b"x\n-\n", " permit 1 2 3")?;
    check_told(&rt, rt.alloc(), FIRST_PERMIT, b"x\n-\n", " permit 1 3")
}

#[test]
fn nothing_is_left_of_an_earlier_policy(rt: HostRuntime) -> Result<(), Fail> {
    let heap = rt.alloc();
    let mut deciding = Deciding::new(heap)?;
    let mut text = String::new(heap);
    for policy in [X_PERMITS, Y_PERMITS, X_PERMITS] {
        let pair = accepted(heap, policy, b"x\ntrue\n")?;
        deciding.tell(heap, &pair, &mut text)?;
    }
    assert!(rt; text.as_str() == " permit not-app permit");
    Ok(())
}
