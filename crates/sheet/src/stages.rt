// The head and the samples of a sheet, each checked by a function of its own.
ghost use Rattle.std.specs.Prelude.{◌≡◌, ◌&&◌, ◌+◌, ◌^◌, ◌<◌};
ghost use Rattle.words.specs.Bytes.{words_of};
ghost use Rattle.sheet.specs.Layout.{sizes_of, narrow_checked, wide_checked, head_checked, samples_from};
ghost use Rattle.checks.specs.Limits.{most_signals, most_samples};
ghost use Rattle.checks.specs.Checked.{between};
ghost use Rattle.checks.specs.Said.{said};
ghost use Rattle.sheet.specs.Checking.{sizes_said};

use checks::fault::{Fault, Refusal};
use checks::head::{head, is_wide, places, wide_counted, wide_followed};
use checks::kind::Kind;
use checks::limits::{LEAST_DISTANCES, MOST_NARROW, MOST_SAMPLES, MOST_SIGNALS, within};
use checks::word::spare_bit_zero;

// The sizes that a head says. A `Layout` has them as fields of its own, and check.rt says why.
#[derive(Clone, Copy)]
pub(crate) struct Sizes {
    pub places: usize,
    pub signals: usize,
    pub samples: usize,
}

impl Sizes {
    #[tactic(auto, unfolding(crate::specs::Layout::sizes_of))]
    fn of(s: &[u8]) -> Sizes
        ensures { sizes_said result ≡ sizes_of (words_of s.now) }
    {
        let head = head(s);
        Sizes {
            places: places(s),
            signals: words::bits::<12, 8>(head) as usize,
            samples: words::bits::<0, 12>(head) as usize,
        }
    }

    // Signals and samples in their limits.
    fn are_recorded(self) -> bool
        ensures { result ≡ (between 1 most_signals self.signals && between 1 most_samples self.samples) }
    {
        within(self.signals, MOST_SIGNALS) && within(self.samples, MOST_SAMPLES)
    }
}

#[tactic(auto, unfolding(crate::specs::Layout::narrow_checked))]
fn check_narrow(s: &[u8], distances: usize) -> Result<Sizes, Refusal>
    ensures { said sizes_said result ≡ narrow_checked (words_of s.now) distances }
{
    if distances < LEAST_DISTANCES {
        return Err(Fault::DistancesShort.at(0));
    }
    if !Kind::Head.is_at(s, 0) {
        return Err(Fault::NotHead.at(0));
    }
    let sizes = Sizes::of(s);
    if !within(sizes.places, MOST_NARROW) || !sizes.are_recorded() {
        return Err(Fault::SizeOutOfLimits.at(0));
    }
    Ok(sizes)
}

// The word of the places, the head behind it, and only then what is lent: before, the places are not known. So its tests have another order than those
// of a narrow head, and the two are no one function.
#[tactic(auto, using(checks::proofs::Heads::places_few), unfolding(crate::specs::Layout::wide_checked, crate::specs::Layout::sizes_of))]
fn check_wide(s: &[u8], distances: usize) -> Result<Sizes, Refusal>
    ensures { said sizes_said result ≡ wide_checked (words_of s.now) distances }
{
    if !wide_counted(s) {
        return Err(Fault::WideHead.at(0));
    }
    if !wide_followed(s, Kind::Head.number()) {
        return Err(Fault::WideHead.at(1));
    }
    let sizes = Sizes::of(s);
    if !sizes.are_recorded() {
        return Err(Fault::SizeOutOfLimits.at(1));
    }
    if distances < sizes.places * sizes.places {
        return Err(Fault::DistancesShort.at(0));
    }
    Ok(sizes)
}

// The head, given how many distances are lent.
#[tactic(auto, unfolding(crate::specs::Layout::head_checked))]
pub(crate) fn check_head(s: &[u8], distances: usize) -> Result<Sizes, Refusal>
    ensures { said sizes_said result ≡ head_checked (words_of s.now) distances }
{
    if is_wide(s) {
        return check_wide(s, distances);
    }
    check_narrow(s, distances)
}

// So many samples from an index on, and the index after them.
#[tactic(auto, using(words::proofs::Words::words_count, checks::proofs::Tests::kind_told, crate::proofs::Samples::not_sample, crate::proofs::Samples::spare_bit_set, crate::proofs::Samples::one_less))]
pub(crate) fn check_samples(s: &[u8], start: usize, count: usize) -> Result<usize, Refusal>
    requires { start + count < 2 ^ 64 }
    ensures { said (λ after. after) result ≡ samples_from (words_of s.now) count start }
{
    let end = start + count;
    for at in start..end {
        if !Kind::Sample.is_at(s, at) {
            return Err(Fault::NotSample.at(at));
        }
        if !spare_bit_zero(s, at) {
            return Err(Fault::SampleSpareBit.at(at));
        }
    }
    Ok(end)
}
