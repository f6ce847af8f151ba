// A policy's answer to readings.

ghost use Rattle.std.specs.Prelude.{◌≡◌, ◌≤◌, [], length, IfOk, vec_len};
ghost use Rattle.policy.specs.Accepted.{lines_of};
ghost use Rattle.readings.specs.Rows.{map_in};
ghost use Rattle.combining.specs.Fewer.{Fewer};
ghost use Rattle.trees.specs.Expressions.{Map};
ghost use Rattle.trees.specs.Policies.{respond as respond_of};
ghost use Rattle.trees.specs.Parts.{policy_of};
ghost use Rattle.trees.specs.AllVisited.{all_visited};
ghost use Rattle.trees.specs.Known.{Reads, known_policy, nothing};
ghost use Rattle.deciding.specs.Answer.{response_of, answer_places, places, readings_in, Enough};

use crate::evaluator::Evaluator;
use crate::known::Known;
use crate::memory::Memory;
use crate::response::Answer;
use combining::Decision;
use policy::{Line, Policy};
use readings::Row;
use sources::Source;
use std::alloc::{AllocError, Global};
use trees::Duty;
use values::Value;

impl Answer {
    // Reserves the memory; the answer is indet without duties until a policy has responded.
    pub fn new(heap: Global) -> Result<Answer, AllocError>
        ensures { IfOk result (λ a. response_of a ≡ record { decision = Decision.Indeterminate; duties = [] }) }
    {
        let duties = Vec::with_capacity(heap, 256)?;
        Ok(Answer {
            decision: Decision::Indeterminate,
            duties,
        })
    }

    pub fn decision(&self) -> Decision
        ensures { result ≡ (response_of self.now).decision }
    {
        self.decision
    }

    pub fn duties(&self) -> &[Duty]
        ensures { result.now ≡ (response_of self.now).duties }
    {
        self.duties.as_slice()
    }
}

// Puts what each attr line reads in a source at that line's place.
fn read_lines<S: Source>(lines: &[Line], source: &S, readings: &mut Vec<Value>)
    requires { length lines.now ≤ vec_len readings.old }
    ensures reads { Reads lines.now readings.new.items (S.means source.now) }
    ensures len { vec_len readings.new ≡ vec_len readings.old }
{
    // By index: a reading is found by its line's place, and no value is copied for a line of another kind.
    for (place, line) in lines.iter().enumerate() {
        if let Line::Attribute(name) = line {
            readings[place] = source.look_up(name.as_bytes());
        }
    }
}

impl Evaluator {
    // Reserves the memory; nothing later allocates.
    pub fn new(heap: Global) -> Result<Evaluator, AllocError>
        ensures { IfOk result (λ e. Enough (places e)) }
    {
        let memory = Memory::new(heap)?;
        let readings = Vec::from_elem(heap, Value::Missing, 256)?;
        Ok(Evaluator { memory, readings })
    }

    // Answers by readings that are given line by line: those of every map that they agree with.
    pub fn respond(&mut self, policy: &Policy, readings: &[Value], answer: &mut Answer)
        ensures known { response_of answer.new ≡ respond_of nothing (known_policy (lines_of policy.now) readings.now) }
        ensures responds { (m : Map) → Reads (lines_of policy.now) readings.now m → response_of answer.new ≡ respond_of m (policy_of (lines_of policy.now)) }
        ensures greedy { (m : Map) → Reads (lines_of policy.now) readings.now m → Fewer (response_of answer.new) (respond_of m (all_visited (policy_of (lines_of policy.now)))) }
        ensures same { answer_places answer.new ≡ answer_places answer.old }
        ensures places { places self.new ≡ places self.old }
    {
        let known = Known {
            lines: policy.lines(),
            readings,
        };
        self.memory.respond(&known, answer);
    }

    // What the attr lines read last, by line number; the other places hold what was there before.
    pub fn readings(&self) -> &[Value]
        ensures { result.now ≡ readings_in self.now }
    {
        self.readings.as_slice()
    }

    // Looks up what a policy's attr lines name in a source.
    pub fn read<S: Source>(&mut self, policy: &Policy, source: &S)
        ensures reads { Reads (lines_of policy.now) (readings_in self.new) (S.means source.now) }
        ensures places { places self.new ≡ places self.old }
    {
        read_lines(policy.lines(), source, &mut self.readings);
    }

    // Answers by what was read last, which stays.
    pub fn decide(&mut self, policy: &Policy, answer: &mut Answer)
        ensures known { response_of answer.new ≡ respond_of nothing (known_policy (lines_of policy.now) (readings_in self.old)) }
        ensures responds { (m : Map) → Reads (lines_of policy.now) (readings_in self.old) m → response_of answer.new ≡ respond_of m (policy_of (lines_of policy.now)) }
        ensures read { readings_in self.new ≡ readings_in self.old }
        ensures same { answer_places answer.new ≡ answer_places answer.old }
        ensures places { places self.new ≡ places self.old }
    {
        let known = Known {
            lines: policy.lines(),
            readings: self.readings.as_slice(),
        };
        self.memory.respond(&known, answer);
    }

    // Answers by a row of a readings file.
    pub fn respond_to_row(&mut self, policy: &Policy, row: &Row, answer: &mut Answer)
        ensures responds { response_of answer.new ≡ respond_of (map_in row.now) (policy_of (lines_of policy.now)) }
        ensures greedy { Fewer (response_of answer.new) (respond_of (map_in row.now) (all_visited (policy_of (lines_of policy.now)))) }
        ensures read { Reads (lines_of policy.now) (readings_in self.new) (map_in row.now) }
        ensures same { answer_places answer.new ≡ answer_places answer.old }
        ensures places { places self.new ≡ places self.old }
    {
        self.read(policy, row);
        self.decide(policy, answer);
    }
}
