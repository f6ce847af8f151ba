// A gate that is called step by step.

use crate::steps::{Step, Words, words};
use enforcement::Bias;
use gate::Gate;
use runs::{Answer, Call};
use services::Service;
use sources::Source;
use std::alloc::Global;
use std::process::Abort;
use std::test::Fail;

// The gate, its bias and the file that is to be in force.
#[derive(Drop)]
pub struct Called {
    gate: Gate,
    bias: Bias,
    in_force: Option<&'static [u8]>,
}

// Calls the method.
fn answer<S: Source, V: Service>(gate: &mut Gate, service: &mut V, call: &Call<'_, S>) -> Answer {
    match *call {
        Call::Fit(file) => Answer::Fitted(gate.fit(file)),
        Call::Read(source) => Answer::Taken(gate.read(source)),
        Call::Decide => Answer::Decided(gate.decide()),
        Call::Quick => Answer::Seen(gate.quick()),
        Call::Enforce => Answer::Enforced(gate.enforce(service)),
    }
}

// The gate writes this file, into memory of just its length.
fn check_written(rt: &impl Abort, heap: Global, gate: &mut Gate, file: &[u8]) -> Result<(), Fail> {
    let mut memory = vec![in heap; 0; file.len()]?;
    let length = gate.write_back(memory.as_mut_slice()).ok();
    assert!(rt; length == Some(file.len()), "another length");
    assert!(rt; memory.as_slice() == file, "another file");
    Ok(())
}

// The gate has no file to write.
fn check_refused(rt: &impl Abort, heap: Global, gate: &mut Gate) -> Result<(), Fail> {
    match gate.write_back(&mut [0; 16]) {
        Ok(_) => Err(Fail::new("a file without a policy")),
        Err(rejection) => {
            let line = format!(in heap; "{rejection}")?;
            assert_eq!(rt; line.as_str(), "refused 12 4 0 0");
            Ok(())
        }
    }
}

impl Called {
    // A new gate.
    pub fn new(heap: Global, bias: Bias, places: usize) -> Result<Called, Fail> {
        let gate = Gate::new(heap, bias, places)?;
        Ok(Called {
            gate,
            bias,
            in_force: None,
        })
    }

    // A gate that was called before, with this file in force.
    pub fn after(gate: Gate, bias: Bias, file: &'static [u8]) -> Called {
        Called {
            gate,
            bias,
            in_force: Some(file),
        }
    }

    // Each answer is as expected; at first and after each call the file that was accepted last is in force.
    pub fn check<S: Source, V: Service>(
        &mut self,
        rt: &impl Abort,
        heap: Global,
        service: &mut V,
        sources: &[S],
        steps: &[(Step, Words)],
    ) -> Result<(), Fail> {
        self.check_file(rt, heap)?;
        for (number, (step, expected)) in steps.iter().enumerate() {
            let Some(call) = step.call(sources) else {
                return Err(Fail::new("there are fewer sources"));
            };
            let answer = answer(&mut self.gate, service, &call);
            let found = words(heap, *step, answer)?;
            assert_eq!(rt;
                found.as_str(),
                expected[self.bias as usize],
                "call {number}"
            );
            if let (Step::Fit(file), Answer::Fitted(Ok(()))) = (*step, answer) {
                self.in_force = Some(file);
            }
            self.check_file(rt, heap)?;
        }
        Ok(())
    }

    fn check_file(&mut self, rt: &impl Abort, heap: Global) -> Result<(), Fail> {
        match self.in_force {
            Some(file) => check_written(rt, heap, &mut self.gate, file),
            None => check_refused(rt, heap, &mut self.gate),
        }
    }
}
