// The check of the roads, one after the other.
ghost use Rattle.std.specs.Prelude.{◌≡◌, ◌<◌, length};
ghost use Rattle.words.specs.Bytes.{words_of};
ghost use Rattle.checks.specs.Said.{said};
ghost use Rattle.roads.specs.Roads.{road_checked, roads_checked};

use crate::road::Road;
use checks::fault::{Fault, Refusal};
use checks::head::{head_words, is_wide};
use checks::kind::Kind;

// One road, after a road of the pair `last`: its own pair. That its first word is there stays a clause, as the second may be absent.
#[tactic(auto, using(words::proofs::Words::words_count), unfolding(crate::specs::Roads::road_checked))]
fn check_road(s: &[u8], at: usize, places: usize, last: usize) -> Result<usize, Refusal>
    requires { at < length (words_of s.now) }
    ensures { said (λ pair. pair) result ≡ road_checked (words_of s.now) places at last }
{
    let road = Road {
        word: words::word_or_zero(s, at),
        wide: is_wide(s),
    };
    if !road.bits_fit() {
        return Err(Fault::RoadBits.at(at));
    }
    let second = road.second();
    if second <= road.first() || places <= second {
        return Err(Fault::RoadPlaces.at(at));
    }
    let pair = road.pair();
    if pair <= last {
        return Err(Fault::RoadOrder.at(at));
    }
    let next = at + 1;
    if !Kind::Weight.is_at(s, next) || words::payload(words::word_or_zero(s, next)) == 0 {
        return Err(Fault::RoadWeight.at(next));
    }
    Ok(pair)
}

// The roads, from the word after the head on, and the index after them: the first word of another kind ends them.
#[tactic(auto, using(words::proofs::Words::words_count, checks::proofs::Tests::kind_told, crate::proofs::Passing::road_there, crate::proofs::Passing::road_refused, crate::proofs::Passing::road_passed))]
pub fn check_roads(s: &[u8], places: usize) -> Result<usize, Refusal>
    ensures { said (λ after. after) result ≡ roads_checked (words_of s.now) places }
{
    // not a `for`: where the roads end is found on the way
    let mut at = head_words(is_wide(s));
    // before any road, as the definition has it: no pair is 0
    let mut last = 0;
    while Kind::Road.is_at(s, at) {
        last = check_road(s, at, places, last)?;
        at += 2;
    }
    Ok(at)
}
