// The eight combining algorithms and the two strategies, by their words.

ghost use Rattle.std.specs.Prelude.{◌≡◌};
ghost use Rattle.spelling.specs.Algorithms.{algorithm_named, strategy_named, combining_of};

use crate::cut::cut;

#[derive(Clone, Copy, PartialEq, Eq)]
pub enum Algorithm {
    PermitOverrides,
    DenyOverrides,
    DenyUnlessPermit,
    PermitUnlessDeny,
    FirstApplicable,
    OneApplicable,
    WeakConsensus,
    StrongConsensus,
}

// Whether a set visits every child or stops once its decision is final.
#[derive(Clone, Copy, PartialEq, Eq)]
pub enum Strategy {
    All,
    Greedy,
}

// How a set combines its children.
#[derive(Clone, Copy, PartialEq, Eq)]
pub struct Combining {
    pub algorithm: Algorithm,
    pub strategy: Strategy,
}

fn algorithm_named(s: &[u8]) -> Option<Algorithm>
    ensures { result ≡ algorithm_named s.now }
{
    match s {
        b"p-over" => Some(Algorithm::PermitOverrides),
        b"d-over" => Some(Algorithm::DenyOverrides),
        b"d-unless-p" => Some(Algorithm::DenyUnlessPermit),
        b"p-unless-d" => Some(Algorithm::PermitUnlessDeny),
        b"first-app" => Some(Algorithm::FirstApplicable),
        b"one-app" => Some(Algorithm::OneApplicable),
        b"weak-con" => Some(Algorithm::WeakConsensus),
        b"strong-con" => Some(Algorithm::StrongConsensus),
        _ => None,
    }
}

fn strategy_named(s: &[u8]) -> Option<Strategy>
    ensures { result ≡ strategy_named s.now }
{
    match s {
        b"all" => Some(Strategy::All),
        b"greedy" => Some(Strategy::Greedy),
        _ => None,
    }
}

// An algorithm's word, a point and a strategy's word.
pub fn read_combining(s: &[u8]) -> Option<Combining>
    ensures { result ≡ combining_of s.now }
{
    let (name, rest) = cut(s, b'.')?;
    let algorithm = algorithm_named(name)?;
    let strategy = strategy_named(rest)?;
    Some(Combining {
        algorithm,
        strategy,
    })
}
