// Two corrections of one sample with equal revision and unlike values: 20. The list is gone through in parts. Chains through lent words lead from a
// correction to earlier ones of the part, the first of its sample and revision among them and few others. It is compared with that one alone: those between
// agree with it, or they would have been found. Where there is no room for chains, all of the list is one part and every earlier one is looked at.
#![tactic(auto)]

ghost use Rattle.std.specs.Prelude.{◌≡◌, ◌+◌, ◌<◌, length, replicate};
ghost use Rattle.words.specs.Bytes.{words_of};
ghost use Rattle.checks.specs.Said.{said};
ghost use Rattle.corrections.specs.Corrections.{same_revision};
ghost use Rattle.clashes.specs.Chains.{number_before, chain_of, earlier, HeadsFit, PartFits};
ghost use Rattle.clashes.specs.Listed.{agrees_in, FirstIn, NextIn, PartNextIn, ChainedIn, last_in, FoundIn, AloneIn, disagrees_in};

use checks::fault::{Fault, Refusal};
use corrections::correction::{first_at, second_at};
use corrections::list::Corrections;

// The most corrections that words can number, and the fewest that are worth their chains: to look at as many takes about as long.
const MOST_LINKED: usize = 4294967295;

const FEWEST_LINKED: usize = 32;

// How far the chains of one revision and of the next lie apart.
const SPREAD: usize = 65537;

// The corrections that are chained at a time, so many from one on, and in how many chains. 0 stands for none: an option would be matched wherever they are
// counted.
#[derive(Clone, Copy)]
struct Part {
    pub from: usize,
    pub size: usize,
    pub heads: usize,
}

// The first part: up to half of the words are links, as many as there are corrections, and all others heads.
fn first_part(count: usize, room: usize) -> Part
    ensures { PartFits result count room }
{
    let links = (room / 2).min(MOST_LINKED);
    if links < FEWEST_LINKED {
        return Part {
            from: 0,
            size: count,
            heads: 0,
        };
    }
    let size = count.min(links);
    Part {
        from: 0,
        size,
        heads: room - size,
    }
}

// What holds before correction k (`NextIn`) stays a clause of four functions: links are written from turn to turn, and of a type that borrows them to be
// written nothing would be known once it is gone. So list, links, part and k stay parameters.

// Whether two corrections have the same sample and revision: their first two words are then the same.
#[tactic(auto, using(crate::proofs::OneSample::same_words))]
fn same_revision(list: &Corrections, i: usize, k: usize) -> bool
    requires { (i < k) × (k < list.now.count) }
    ensures { result ≡ same_revision (words_of list.now.words.now) list.now.grid i k }
{
    first_at(list.words, i) == first_at(list.words, k)
        && second_at(list.words, i) == second_at(list.words, k)
}

// The chain of a correction, by its sample and its revision.
#[tactic(auto, using(corrections::proofs::Small::target_small))]
fn chain_of(list: &Corrections, heads: usize, k: usize) -> usize
    requires { (k < list.now.count) × (0 < heads) }
    ensures { result ≡ chain_of (words_of list.now.words.now) list.now.grid heads k }
{
    (list.target(k) + list.revision(k) as usize * SPREAD) % heads
}

// The number of which heads and links tell one more, 0 for none.
fn number_before(told: usize) -> Option<usize>
    ensures { result ≡ number_before told }
{
    told.checked_sub(1)
}

// The last candidate before a correction, by its number in the part.
#[tactic(auto, using(crate::proofs::Chaining::chain_inside, crate::proofs::Chaining::all_candidates, crate::proofs::Chaining::head_last))]
fn last_candidate(list: &Corrections, links: &[u8], part: Part, k: usize) -> Option<usize>
    requires { NextIn list.now part links.now k }
    ensures { result ≡ last_in list.now part k }
{
    if part.heads == 0 {
        return number_before((k - part.from).min(part.size));
    }
    number_before(words::word_at(links, chain_of(list, part.heads, k)) as usize)
}

// The candidate before one, in the same way.
#[tactic(auto, using(words::proofs::Words::words_count))]
fn earlier_candidate(links: &[u8], heads: usize, j: usize) -> Option<usize>
    requires { HeadsFit heads (j + 1) (length (words_of links.now)) }
    ensures { result ≡ number_before (earlier heads (words_of links.now) j) }
{
    if heads == 0 {
        return number_before(j);
    }
    number_before(words::word_at(links, heads + j) as usize)
}

// An earlier correction of the part that has the same sample and revision, by its number there. Each link tells the next, so the end is found on the way.
#[tactic(auto, using(crate::proofs::Walking::walk_start, crate::proofs::Walking::walk_less, crate::proofs::Walking::walk_on, crate::proofs::Walking::walk_found, crate::proofs::Walking::walk_over))]
fn find_same(list: &Corrections, links: &[u8], part: Part, k: usize) -> Option<usize>
    requires { NextIn list.now part links.now k }
    ensures { FoundIn list.now part k result }
{
    let mut candidate = last_candidate(list, links, part, k);
    while let Some(j) = candidate {
        if same_revision(list, part.from + j, k) {
            return Some(j);
        }
        candidate = earlier_candidate(links, part.heads, j);
    }
    None
}

// Puts a correction at the front of its chain, if it is one of the part. Heads and links stay one slice, which callers pass on: as two they would be two
// parameters of each.
#[tactic(auto, using(words::proofs::Words::words_count, crate::proofs::Chaining::chain_inside, crate::proofs::Chaining::without_heads, crate::proofs::Chaining::comes_in, crate::proofs::Chaining::stays_out))]
fn enter(list: &Corrections, links: &mut [u8], part: Part, k: usize)
    requires { NextIn list.now part links.old k × AloneIn list.now part k }
    ensures { ChainedIn list.now part links.new (k + 1) }
{
    if part.heads == 0 {
        return;
    }
    let j = k - part.from;
    if part.size <= j {
        return;
    }
    let head = chain_of(list, part.heads, k);
    let last = words::word_at(links, head);
    words::put_word(links, part.heads + j, last);
    words::put_word(links, head, (j + 1) as u32);
}

// Whether a correction disagrees with one before it, up to the end of the part, where those agree. It is put into its chain, unless there is one like it.
#[tactic(auto, using(crate::proofs::Walking::alone_agrees, crate::proofs::Walking::found_decides, crate::proofs::Walking::not_alone, crate::proofs::Chaining::not_entered))]
fn compare(list: &Corrections, links: &mut [u8], part: Part, k: usize) -> bool
    requires { NextIn list.now part links.old k }
    ensures told { result ≡ disagrees_in list.now part k }
    ensures chained { ChainedIn list.now part links.new (k + 1) }
{
    match find_same(list, links, part, k) {
        None => {
            enter(list, links, part, k);
            false
        }
        Some(same) => list.value(part.from + same) != list.value(k),
    }
}

// One after the other, those of the part and those behind it, from no chains on: the first that disagrees with one before it, up to the end of the part;
// where none does, the end, which bounds the next part.
#[tactic(auto, using(crate::proofs::Searching::searched_before, crate::proofs::Searching::found_here, crate::proofs::Searching::searched_on, crate::proofs::Searching::nothing_found))]
fn look_through(list: &Corrections, part: Part, end: usize, links: &mut [u8]) -> usize
    requires { PartNextIn list.now part links.old end }
    ensures { FirstIn list.now (part.from + part.size) end result }
{
    for k in part.from..end {
        if compare(list, links, part, k) {
            return k;
        }
    }
    end
}

// Part by part, each time among those before what has been found: a `while`, since the end moves.
#[tactic(auto, using(words::proofs::Words::words_count, crate::proofs::Searching::first_on))]
fn first_clash(list: &Corrections, first: Part, links: &mut [u8]) -> usize
    requires { PartFits first list.now.count (length (words_of links.old)) }
    ensures { FirstIn list.now list.now.count list.now.count result }
{
    let mut end = list.count;
    let mut from = 0;
    while from < end {
        words::fill_zero(links);
        end = look_through(list, Part { from, ..first }, end, links);
        from += first.size;
    }
    end
}

// The first correction that disagrees with an earlier one. What is lent serves for chains, and is zero in the end.
#[tactic(auto, using(words::proofs::Words::words_count, crate::proofs::Searching::clash_told, crate::proofs::Searching::none_told))]
pub fn find_clash(list: &Corrections, links: &mut [u8]) -> Result<(), Refusal>
    ensures found { said (λ agreed. agreed) result ≡ agrees_in list.now }
    ensures cleared { links.new ≡ replicate (length links.old) 0 }
{
    let first = first_part(list.count, words::word_count(links));
    let found = first_clash(list, first, links);
    words::fill_zero(links);
    if found < list.count {
        return Err(Fault::CorrectionsClash.at(found * 3));
    }
    Ok(())
}
