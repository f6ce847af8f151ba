// All lines of a policy, worked from the top.

ghost use Rattle.std.specs.Prelude.{◌≡◌, ◌+◌, ◌≤◌, ◌++◌, length, vec_len, vec_capacity};
ghost use Rattle.trees.specs.Policies.{respond as respond_of};
ghost use Rattle.trees.specs.Known.{known_policy, nothing};
ghost use Rattle.deciding.specs.Known.{size, read_dues};
ghost use Rattle.deciding.specs.Kept.{KeptTo, response_in};
ghost use Rattle.deciding.specs.Answer.{response_of, answer_places, memory_places};

use crate::kept::Kept;
use crate::known::Known;
use crate::memory::Memory;
use crate::response::Answer;
use policy::LineNumber;
use trees::Duty;
use values::Value;

impl Known<'_> {
    // Adds the duties of the lines `numbers`, with their arguments' values.
    fn fulfil(&self, numbers: &[LineNumber], duties: &mut Vec<Duty>)
        requires { vec_len duties.old + length numbers.now ≤ vec_capacity duties.old }
        ensures added { duties.new.items ≡ duties.old.items ++ read_dues self.now numbers.now }
        ensures capacity { vec_capacity duties.new ≡ vec_capacity duties.old }
    {
        for number in numbers {
            let duty = self.duty_at(*number);
            // In two steps: the loop gets a proof only where the type of the argument is named, so a plain push does not.
            let argument: Value = duty.argument;
            duties.push_reserved(Duty { argument, ..duty });
        }
    }
}

impl Answer {
    // Becomes a kept response, its duties with their arguments' values.
    fn fill(&mut self, known: &Known, kept: Kept, numbers: &[LineNumber])
        requires within { kept.start + kept.count ≤ length numbers.now }
        requires few { kept.count ≤ 256 }
        ensures answer { response_of self.new ≡ response_in (read_dues known.now numbers.now) kept }
        ensures same { answer_places self.new ≡ answer_places self.old }
    {
        self.decision = kept.decision;
        self.duties.clear();
        let own = &numbers[kept.start..kept.start + kept.count];
        known.fulfil(own, &mut self.duties);
    }
}

impl Memory {
    // Keeps the response of each line. By number, since a response is kept at its line's number, and lines name one another by it.
    fn respond_all(&mut self, known: &Known)
        ensures kept { KeptTo (size known.now + 1) known.now self.new.responses (read_dues known.now self.new.numbers.items) }
        ensures places { memory_places self.new ≡ memory_places self.old }
    {
        self.numbers.clear();
        for number in 1..=known.last() {
            let start = self.numbers.len();
            let decision = self.respond_line(known, number);
            let count = self.numbers.len() - start;
            self.responses[usize::from(number)] = Kept {
                decision,
                start,
                count,
            };
        }
    }

    // The answer of the last line's policy.
    pub(crate) fn respond(&mut self, known: &Known, answer: &mut Answer)
        ensures answer { response_of answer.new ≡ respond_of nothing (known_policy known.now.lines.now known.now.readings.now) }
        ensures same { answer_places answer.new ≡ answer_places answer.old }
        ensures places { memory_places self.new ≡ memory_places self.old }
    {
        self.respond_all(known);
        let last = self.responses[usize::from(known.last())];
        answer.fill(known, last, self.numbers.as_slice());
    }
}
