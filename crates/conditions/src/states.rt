// Truths of which one holds: those of a decision, and those of a running state.

ghost use Rattle.std.specs.Prelude.{◌≡◌, ℕ, ◌+◌, ◌*◌, ◌<◌, ◌≤◌, ◌==◌, not, ◌&&◌, ◌||◌, cond, true, nat_lt, List, length, slice_index_or};
ghost use Rattle.values.specs.declared.value.Value.{Value};
ghost use Rattle.combining.specs.declared.decision.Decision.{Decision as Decided};
ghost use Rattle.combining.specs.Table.{place as place_of};
ghost use Rattle.conditions.specs.declared.places.Places.{Places as Placed};
ghost use Rattle.conditions.specs.Places.{Grows, Roomy, Inside, holds, value_in};
ghost use Rattle.conditions.specs.States.{truth_at, AllInside, Only, Below, others_in, others_of};
ghost use Rattle.conditions.specs.Transitions.{first_in, next_in, decision_in};
ghost use Rattle.conditions.specs.Limited.{limited};

use crate::condition::{Place, Test};
use crate::places::Places;
use crate::table::Transitions;
use crate::truth::Truth;
use combining::Decision;

// A decision's number, as in the tables of the algorithms.
fn number(decision: Decision) -> usize
    ensures bound { result < 4 }
    ensures place { result ≡ place_of decision }
{
    decision as usize
}

fn decision_row(table: &Transitions) -> [usize; 5]
    ensures bound { Below 4 result }
    ensures numbers { (s : ℕ) → s < 5 → slice_index_or result s 0 ≡ place_of (decision_in table.now s) }
{
    let decisions = table.decisions;
    [
        number(decisions[0]),
        number(decisions[1]),
        number(decisions[2]),
        number(decisions[3]),
        number(decisions[4]),
    ]
}

// How many entries of a row are not `rest`.
fn others_in(row: &[usize], rest: usize) -> usize
    ensures few { result ≤ length row.now }
    ensures others { result ≡ others_in rest row.now }
{
    let mut others = 0;
    for d in 0..row.len() {
        others += usize::from(row[d] != rest);
    }
    others
}

fn others_of(rows: &[[usize; 4]; 4], rest: usize) -> usize
    ensures few { result ≤ 16 }
    ensures others { result ≡ others_of rest rows.now }
{
    others_in(&rows[0], rest)
        + others_in(&rows[1], rest)
        + others_in(&rows[2], rest)
        + others_in(&rows[3], rest)
}

fn is_constant(row: &[usize]) -> bool
    requires { length row.now ≡ 4 }
    ensures { result ≡ true → (d : ℕ) → d < 4 → slice_index_or row.now d 0 ≡ slice_index_or row.now 0 0 }
{
    row[1] == row[0] && row[2] == row[0] && row[3] == row[0]
}

// How many lines the rows take at most, where `rest` is left out. A weight only: whatever it is, what is written holds.
fn weight_of(rows: &[[usize; 4]; 4], rest: usize) -> usize {
    let mut weight = 0;
    for state in 0..4 {
        let row = &rows[state];
        weight += if is_constant(row) {
            usize::from(row[0] != rest)
        } else {
            2 * others_in(row, rest)
        };
    }
    weight
}

// The state to leave out: the others take the fewest lines. None, which 5 stands for, where these are too many:
// each other entry takes two lines at most, and the state itself six.
fn left_out(rows: &[[usize; 4]; 4]) -> usize
    ensures { 2 * others_of result rows.now + cond (nat_lt result 5) 6 0 ≤ 32 }
{
    let mut best = 5;
    let mut least = others_of(rows, best) * 2;
    for rest in 0..5 {
        if others_of(rows, rest) <= 13 {
            let weight = weight_of(rows, rest);
            if weight < least {
                best = rest;
                least = weight;
            }
        }
    }
    best
}

// The truth at number t; never, where it is left out.
fn unless_rest(truth: Truth, t: usize, rest: usize) -> Truth
    ensures within { (p : Placed) → Inside p truth → Inside p result }
    ensures holds { (p : Placed) (readings : List Value) → holds p readings result ≡ (holds p readings truth && not (t == rest)) }
{
    if t == rest {
        Truth::Known(false)
    } else {
        truth
    }
}

impl Places {
    // What stands at `number` holds too where `state` and `truth` do, unless `number` is left out.
    fn spread_one(
        &mut self,
        into: [Truth; 5],
        number: usize,
        state: Truth,
        truth: Truth,
        rest: usize,
    ) -> [Truth; 5]
        requires room { Roomy self.old (2 * cond (number == rest) 0 1) }
        requires number { number < 5 }
        requires before { AllInside self.old into }
        requires state { Inside self.old state }
        requires truth { Inside self.old truth }
        ensures grows { Grows self.old self.new (2 * cond (number == rest) 0 1) }
        ensures within { AllInside self.new result }
        ensures holds { (readings : List Value) (t : ℕ) → t < 5 → (t ≡ rest → ⊥) → holds self.new readings (truth_at result t) ≡ (holds self.old readings (truth_at into t) || ((holds self.old readings state && holds self.old readings truth) && (t == number))) }
    {
        let mut truths = into;
        if number != rest {
            let pair = self.both(state, truth);
            truths[number] = self.either(truths[number], pair);
        }
        truths
    }

    // Where `state` holds and number d of `from` does, what stands at the number that `row` has for d holds too.
    // What stands at `rest` is left as it is.
    fn spread(
        &mut self,
        into: [Truth; 5],
        row: &[usize],
        state: Truth,
        from: &[Truth],
        rest: usize,
    ) -> [Truth; 5]
        requires room { Roomy self.old (2 * others_in rest row.now) }
        requires numbers { Below 5 row.now }
        requires alike { length from.now ≡ length row.now }
        requires before { AllInside self.old into }
        requires state { Inside self.old state }
        requires beside { AllInside self.old from.now }
        ensures grows { Grows self.old self.new (2 * others_in rest row.now) }
        ensures within { AllInside self.new result }
        ensures holds { (readings : List Value) (d : ℕ) → d < length row.now → Only self.old readings from.now d → (t : ℕ) → t < 5 → (t ≡ rest → ⊥) → holds self.new readings (truth_at result t) ≡ (holds self.old readings (truth_at into t) || (holds self.old readings state && (t == slice_index_or row.now d 0))) }
    {
        let mut truths = into;
        for d in 0..row.len() {
            let spread = self.spread_one(truths, row[d], state, from[d], rest);
            truths = spread;
        }
        truths
    }

    // The same, where a row that has one number for all takes one line.
    fn advance(
        &mut self,
        into: [Truth; 5],
        row: &[usize],
        state: Truth,
        child: &[Truth; 4],
        rest: usize,
    ) -> [Truth; 5]
        requires room { Roomy self.old (2 * others_in rest row.now) }
        requires four { length row.now ≡ 4 }
        requires numbers { Below 5 row.now }
        requires before { AllInside self.old into }
        requires state { Inside self.old state }
        requires child { AllInside self.old child.now }
        ensures grows { Grows self.old self.new (2 * others_in rest row.now) }
        ensures within { AllInside self.new result }
        ensures holds { (readings : List Value) (d : ℕ) → d < 4 → Only self.old readings child.now d → (t : ℕ) → t < 5 → (t ≡ rest → ⊥) → holds self.new readings (truth_at result t) ≡ (holds self.old readings (truth_at into t) || (holds self.old readings state && (t == slice_index_or row.now d 0))) }
    {
        if is_constant(row) {
            self.spread_one(into, row[0], state, Truth::Known(true), rest)
        } else {
            self.spread(into, row, state, child, rest)
        }
    }

    // What holds where none of the truths does, but for the one that is left out.
    fn none_other(&mut self, truths: &[Truth; 5], rest: usize) -> Truth
        requires room { Roomy self.old 6 }
        requires truths { AllInside self.old truths.now }
        ensures grows { Grows self.old self.new 6 }
        ensures within { Inside self.new result }
        ensures holds { (readings : List Value) (x : ℕ) → x < 5 → ((t : ℕ) → t < 5 → (t ≡ rest → ⊥) → holds self.old readings (truth_at truths.now t) ≡ (t == x)) → holds self.new readings result ≡ (rest == x) }
    {
        let mut some = Truth::Known(false);
        for t in 0..5 {
            some = self.either(some, unless_rest(truths[t], t, rest));
        }
        self.negation(some)
    }

    // The truths with the one that was left out.
    fn complete(&mut self, truths: [Truth; 5], rest: usize) -> [Truth; 5]
        requires room { Roomy self.old (cond (nat_lt rest 5) 6 0) }
        requires truths { AllInside self.old truths }
        ensures grows { Grows self.old self.new (cond (nat_lt rest 5) 6 0) }
        ensures within { AllInside self.new result }
        ensures only { (readings : List Value) (x : ℕ) → x < 5 → ((t : ℕ) → t < 5 → (t ≡ rest → ⊥) → holds self.old readings (truth_at truths t) ≡ (t == x)) → Only self.new readings result x }
    {
        let mut all = truths;
        if rest < 5 {
            let truth = self.none_other(&truths, rest);
            all[rest] = truth;
        }
        all
    }

    // The truths of the running state after a first child, from those of its decision.
    pub fn first_states(&mut self, table: &Transitions, child: [Truth; 4]) -> [Truth; 5]
        requires room { Roomy self.old 8 }
        requires bound { (d : Decided) → first_in table.now d < 5 }
        requires child { AllInside self.old child }
        ensures grows { Grows self.old self.new 8 }
        ensures within { AllInside self.new result }
        ensures holds { (readings : List Value) (d : Decided) → Only self.old readings child (place_of d) → Only self.new readings result (first_in table.now d) }
    {
        self.spread(
            [Truth::Known(false); 5],
            &table.first,
            Truth::Known(true),
            &child,
            5,
        )
    }

    // The truths of the running state after one child more. State 4 stays, so its row needs no lines, and an item takes 32 at most.
    pub fn next_states(
        &mut self,
        table: &Transitions,
        states: [Truth; 5],
        child: [Truth; 4],
    ) -> [Truth; 5]
        requires room { Roomy self.old 32 }
        requires bound { (s : ℕ) (d : Decided) → next_in table.now s d < 5 }
        requires states { AllInside self.old states }
        requires child { AllInside self.old child }
        ensures grows { Grows self.old self.new 32 }
        ensures within { AllInside self.new result }
        ensures holds { (readings : List Value) (s : ℕ) (d : Decided) → s < 5 → Only self.old readings states s → Only self.old readings child (place_of d) → Only self.new readings result (next_in table.now s d) }
    {
        let none = Truth::Known(false);
        let rest = left_out(&table.next);
        let mut truths = [none, none, none, none, states[4]];
        for state in 0..4 {
            let further = self.advance(truths, &table.next[state], states[state], &child, rest);
            truths = further;
        }
        self.complete(truths, rest)
    }

    // The truths of the decision that the children come to, from those of the running state.
    pub fn decision_of(&mut self, table: &Transitions, states: [Truth; 5]) -> [Truth; 4]
        requires room { Roomy self.old 10 }
        requires states { AllInside self.old states }
        ensures grows { Grows self.old self.new 10 }
        ensures within { AllInside self.new result }
        ensures holds { (readings : List Value) (s : ℕ) → s < 5 → Only self.old readings states s → Only self.new readings result (place_of (decision_in table.now s)) }
    {
        let [permit, deny, not_applicable, indeterminate, _] = self.spread(
            [Truth::Known(false); 5],
            &decision_row(table),
            Truth::Known(true),
            &states,
            5,
        );
        [permit, deny, not_applicable, indeterminate]
    }

    fn all_three(&mut self, a: Truth, b: Truth, c: Truth) -> Truth
        requires room { Roomy self.old 2 }
        requires first { Inside self.old a }
        requires second { Inside self.old b }
        requires third { Inside self.old c }
        ensures grows { Grows self.old self.new 2 }
        ensures within { Inside self.new result }
        ensures holds { (readings : List Value) → holds self.new readings result ≡ ((holds self.old readings a && holds self.old readings b) && holds self.old readings c) }
    {
        let pair = self.both(a, b);
        self.both(pair, c)
    }

    fn none_of(&mut self, a: Truth, b: Truth, c: Truth) -> Truth
        requires room { Roomy self.old 3 }
        requires first { Inside self.old a }
        requires second { Inside self.old b }
        requires third { Inside self.old c }
        ensures grows { Grows self.old self.new 3 }
        ensures within { Inside self.new result }
        ensures holds { (readings : List Value) → holds self.new readings result ≡ not ((holds self.old readings a || holds self.old readings b) || holds self.old readings c) }
    {
        let pair = self.either(a, b);
        let some = self.either(pair, c);
        self.negation(some)
    }

    // The truths of a policy's decision, from those of its effect or its children's decision: by its target,
    // and whether its own duties on permit and on deny are fulfilled.
    pub fn limited(
        &mut self,
        decision: [Truth; 4],
        target: Place,
        on_permit: Truth,
        on_deny: Truth,
    ) -> [Truth; 4]
        requires room { Roomy self.old 11 }
        requires decision { AllInside self.old decision }
        requires target { target < self.old.used }
        requires permits { Inside self.old on_permit }
        requires denies { Inside self.old on_deny }
        ensures grows { Grows self.old self.new 11 }
        ensures within { AllInside self.new result }
        ensures holds { (readings : List Value) (d : Decided) → Only self.old readings decision (place_of d) → Only self.new readings result (place_of (limited (value_in self.old readings target) (holds self.old readings on_permit) (holds self.old readings on_deny) d)) }
    {
        let applies = self.test(Test::True, target);
        let absent = self.test(Test::Absent, target);
        let permit = self.all_three(applies, decision[0], on_permit);
        let deny = self.all_three(applies, decision[1], on_deny);
        let passed = self.both(applies, decision[2]);
        let not_applicable = self.either(absent, passed);
        let indeterminate = self.none_of(permit, deny, not_applicable);
        [permit, deny, not_applicable, indeterminate]
    }
}
