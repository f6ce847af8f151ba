// Writing condition lines one after the other.

ghost use Rattle.std.specs.Prelude.{◌≡◌, ℕ, ◌+◌, ◌<◌, not, ◌&&◌, ◌||◌, true, List, IfOk};
ghost use Rattle.values.specs.declared.value.Value.{Value};
ghost use Rattle.operators.specs.Classes.{is_true};
ghost use Rattle.conditions.specs.Meaning.{blank, value_by, names_above, passes};
ghost use Rattle.conditions.specs.Places.{Grows, Roomy, Inside, holds, value_in, values_in, lines_in, place_in, size_of};

use crate::condition::{Condition, Place, Test};
use crate::places::Places;
use crate::truth::Truth;
use std::alloc::{AllocError, Global};

impl Places {
    // So many places, none of them written.
    pub fn new(heap: Global, count: usize) -> Result<Places, AllocError>
        ensures { IfOk result (λ p. (size_of p ≡ count) × (p.used ≡ 0) × ((k : ℕ) → place_in p k ≡ blank)) }
    {
        let lines = Vec::from_elem(heap, Condition::Truth(false), count)?;
        Ok(Places { lines, used: 0 })
    }

    pub fn count(&self) -> usize
        ensures { result ≡ size_of self.now }
    {
        self.lines.len()
    }

    // The lines that were written.
    pub fn lines(&self) -> &[Condition]
        ensures { result.now ≡ lines_in self.now }
    {
        &self.lines[0..self.used]
    }

    // Begins anew: the next line goes to the first place. What stands in the places stays.
    pub fn restart(&mut self)
        ensures used { self.new.used ≡ 0 }
        ensures lines { self.new.lines ≡ self.old.lines }
    {
        self.used = 0;
    }

    // Writes a line.
    pub fn add(&mut self, line: Condition) -> Place
        requires room { Roomy self.old 1 }
        requires above { names_above self.old.used line ≡ true }
        ensures grows { Grows self.old self.new 1 }
        ensures within { result < self.new.used }
        ensures value { (readings : List Value) → value_in self.new readings result ≡ value_by readings (values_in self.old readings) line }
    {
        let place = self.used;
        self.lines[place] = line;
        self.used = place + 1;
        place as Place
    }

    // A test of the line at a place.
    pub fn test(&mut self, test: Test, place: Place) -> Truth
        requires room { Roomy self.old 1 }
        requires within { place < self.old.used }
        ensures grows { Grows self.old self.new 1 }
        ensures within { Inside self.new result }
        ensures holds { (readings : List Value) → holds self.new readings result ≡ passes test (value_in self.old readings place) }
    {
        Truth::At(self.add(Condition::Test(test, place)))
    }

    // The place of a line that is true where `truth` holds.
    pub fn line_for(&mut self, truth: Truth) -> Place
        requires room { Roomy self.old 1 }
        requires within { Inside self.old truth }
        ensures grows { Grows self.old self.new 1 }
        ensures within { result < self.new.used }
        ensures holds { (readings : List Value) → is_true (value_in self.new readings result) ≡ holds self.old readings truth }
    {
        match truth {
            Truth::Known(known) => self.add(Condition::Truth(known)),
            Truth::At(place) => place,
        }
    }

    pub fn negation(&mut self, a: Truth) -> Truth
        requires room { Roomy self.old 1 }
        requires within { Inside self.old a }
        ensures grows { Grows self.old self.new 1 }
        ensures within { Inside self.new result }
        ensures holds { (readings : List Value) → holds self.new readings result ≡ not (holds self.old readings a) }
    {
        match a {
            Truth::Known(truth) => Truth::Known(!truth),
            Truth::At(place) => Truth::At(self.add(Condition::Negation(place))),
        }
    }

    pub fn both(&mut self, a: Truth, b: Truth) -> Truth
        requires room { Roomy self.old 1 }
        requires first { Inside self.old a }
        requires second { Inside self.old b }
        ensures grows { Grows self.old self.new 1 }
        ensures within { Inside self.new result }
        ensures holds { (readings : List Value) → holds self.new readings result ≡ (holds self.old readings a && holds self.old readings b) }
    {
        match (a, b) {
            (Truth::Known(false), _) | (_, Truth::Known(false)) => Truth::Known(false),
            (Truth::Known(true), other) | (other, Truth::Known(true)) => other,
            (Truth::At(j), Truth::At(k)) => Truth::At(self.add(Condition::Both(j, k))),
        }
    }

    pub fn either(&mut self, a: Truth, b: Truth) -> Truth
        requires room { Roomy self.old 1 }
        requires first { Inside self.old a }
        requires second { Inside self.old b }
        ensures grows { Grows self.old self.new 1 }
        ensures within { Inside self.new result }
        ensures holds { (readings : List Value) → holds self.new readings result ≡ (holds self.old readings a || holds self.old readings b) }
    {
        match (a, b) {
            (Truth::Known(true), _) | (_, Truth::Known(true)) => Truth::Known(true),
            (Truth::Known(false), other) | (other, Truth::Known(false)) => other,
            (Truth::At(j), Truth::At(k)) => Truth::At(self.add(Condition::Either(j, k))),
        }
    }
}
