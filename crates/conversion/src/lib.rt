// The converter: a valid sheet laid out narrow or wide (M-105). Head, roads and the end's count are written anew, all other words are copied.
#![tactic(auto)]

ghost use Rattle.std.specs.Prelude.{◌≡◌, ◌≤◌, length, replicate};
ghost use Rattle.words.specs.Bytes.{words_of, after_words};
ghost use Rattle.checks.specs.Heads.{most_of};
ghost use Rattle.conversion.specs.Relaid.{laid_out};
ghost use Rattle.tool.specs.Tool.{told_by, Makes};
ghost use Rattle.conversion.specs.Lent.{converted_in, RoadsFit, roads_put, sheet_put, Ready};

use checks::beginning::{Beginning, put_head};
use checks::fault::{Fault, Refusal};
use checks::head::is_wide;
use checks::kind::Kind;
use checks::limits::{MOST_NARROW, MOST_PLACES};
use roads::road::{Road, road_at};
use sheet::check::{Layout, check_words};

// The most places of a layout.
fn most_places(wide: bool) -> usize
    ensures { result ≡ most_of wide }
{
    if wide { MOST_PLACES } else { MOST_NARROW }
}

// The first word of a road of one layout in another: what stands above the places, bits 31..26, stays. The parts are added, and not put together by `|`,
// which makes another word where the second place of a wide road has more than the eight bits of a narrow one.
fn lay_out(road: Road, to: bool) -> u32
    ensures { result ≡ laid_out road.wide to road.word }
{
    let above = (road.word >> 26) << 26;
    let first = road.first() as u32;
    let second = road.second() as u32;
    let place_bits = if to { 12 } else { 8 };
    above + (first << place_bits) + second
}

// Writes the two words of each road behind the words of the head.
#[tactic(auto, using(words::proofs::Words::words_count, checks::proofs::Heads::few_head_words, crate::proofs::Writing::roads_none))]
fn write_roads(sheet: &[u8], roads: usize, to: bool, output: &mut [u8])
    requires { RoadsFit to sheet.now roads output.old }
    ensures { words_of output.new ≡ roads_put to sheet.now roads output.old }
{
    let from = is_wide(sheet);
    for r in 0..roads {
        let at = road_at(from, r);
        let behind = road_at(to, r);
        let road = Road {
            word: words::word_at(sheet, at),
            wide: from,
        };
        words::put_word(output, behind, lay_out(road, to));
        words::put_word(output, behind + 1, words::word_at(sheet, at + 1));
    }
}

// Writes a valid sheet in the layout that is asked for, where there is room.
#[tactic(auto, using(words::proofs::Words::words_count, checks::proofs::Heads::few_head_words))]
fn write_sheet(sheet: &[u8], layout: Layout, to: bool, output: &mut [u8])
    requires { Ready to sheet.now layout output.old }
    ensures { words_of output.new ≡ sheet_put to sheet.now layout output.old }
{
    put_head(
        output,
        Beginning {
            kind: Kind::Head.number(),
            places: layout.places,
            count: layout.signals,
            samples: layout.samples,
        },
        to,
    );
    write_roads(sheet, layout.roads, to, output);
    let last = words::word_count(sheet) - 1;
    let behind = road_at(to, layout.roads);
    let end = behind + (last - layout.recording);
    let from = layout.recording * 4;
    words::copy_bytes(&sheet[from..last * 4], output, behind * 4);
    words::put_word(output, end, Kind::End.word(end as u32));
}

// Makes the words at the front of the output. A sheet's own fault comes first, then 18, and an output that is too short last.
#[tactic(auto, using(crate::proofs::Converting::decisions, checks::proofs::Heads::few_head_words, tool::proofs::Leaving::refusal_made))]
fn make(sheet: &[u8], to: bool, output: &mut [u8]) -> Result<usize, Refusal>
    ensures { Makes (converted_in to sheet.now output.old) result (words_of output.new) }
{
    let layout = check_words(sheet)?;
    if most_places(to) < layout.places {
        return Err(Fault::TooManyPlaces.at(0));
    }
    let count = road_at(to, layout.roads) + (words::word_count(sheet) - layout.recording);
    if words::word_count(output) < count {
        return Err(Fault::OutputShort.at(words::word_count(sheet)));
    }
    write_sheet(sheet, layout, to, output);
    Ok(count)
}

// Converts a sheet to the layout that is asked for, and tells how many words it has then. Wide or not is a flag, as in the definitions and in the calls of
// hosts.
#[tactic(auto, using(tool::proofs::Leaving::same_tail))]
pub fn convert(sheet: &[u8], to: bool, output: &mut [u8]) -> Result<usize, Refusal>
    ensures told { told_by result ≡ (converted_in to sheet.now output.old).told }
    ensures left { words_of output.new ≡ (converted_in to sheet.now output.old).output }
    ensures tail { after_words output.new ≡ replicate (length (after_words output.old)) 0 }
{
    let made = make(sheet, to, output);
    tool::leave(made, output)
}
