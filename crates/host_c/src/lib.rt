// What a host written in C calls: the functions of the crate host, each under its name. Each slice is a pointer and a length there. Nothing is
// asked of what is lent but that no two parts of it overlap.
//
//     uint64_t judge(const uint8_t *sheet, size_t sheet_length, uint8_t *distances, size_t distances_length, uint8_t *answer,
//         size_t answer_length, uint8_t *result, size_t result_length);
//     uint64_t lookup(const uint8_t *answer, size_t answer_length, uint64_t line, uint64_t sample, uint64_t place);
//     uint64_t sheet_to_wide(const uint8_t *sheet, size_t sheet_length, uint8_t *output, size_t output_length, uint8_t *result,
//         size_t result_length);
//     uint64_t sheet_to_narrow(const uint8_t *sheet, size_t sheet_length, uint8_t *output, size_t output_length, uint8_t *result,
//         size_t result_length);
//     uint64_t correct_sheet(const uint8_t *sheet, size_t sheet_length, const uint8_t *corrections, size_t corrections_length,
//         uint8_t *output, size_t output_length, uint8_t *result, size_t result_length);
#![tactic(auto)]

ghost use Rattle.std.specs.Prelude.{◌≡◌, true, false};
ghost use Rattle.host.specs.Host.{host_judged, host_looked_up};
ghost use Rattle.tools.specs.Tools.{host_converted, host_corrected};

// Judges a sheet and returns the number of its refusal, 0 for none. Lengths that are not whole are 16, before all else.
#[unsafe(no_mangle)]
pub extern "C" fn judge(
    sheet: &[u8],
    distances: &mut [u8],
    answer: &mut [u8],
    res: &mut [u8],
) -> u64
    ensures told { result ≡ (host_judged sheet.now distances.old answer.old res.old).number }
    ensures said { answer.new ≡ (host_judged sheet.now distances.old answer.old res.old).answer }
    ensures measured { distances.new ≡ (host_judged sheet.now distances.old answer.old res.old).distances }
    ensures held { res.new ≡ (host_judged sheet.now distances.old answer.old res.old).result }
{
    host::judge(sheet, distances, answer, res)
}

// 1 yes, 2 no, 0 no verdict: bytes past the last whole word are no part of an answer.
#[unsafe(no_mangle)]
pub extern "C" fn lookup(answer: &[u8], line: u64, sample: u64, place: u64) -> u64
    ensures { result ≡ host_looked_up answer.now line sample place }
{
    host::lookup(answer, line, sample, place)
}

// Lays a sheet out wide.
#[unsafe(no_mangle)]
pub extern "C" fn sheet_to_wide(sheet: &[u8], output: &mut [u8], res: &mut [u8]) -> u64
    ensures told { result ≡ (host_converted true sheet.now output.old res.old).number }
    ensures said { output.new ≡ (host_converted true sheet.now output.old res.old).output }
    ensures held { res.new ≡ (host_converted true sheet.now output.old res.old).result }
{
    host::sheet_to_wide(sheet, output, res)
}

// Lays a sheet of at most 64 places out narrow.
#[unsafe(no_mangle)]
pub extern "C" fn sheet_to_narrow(sheet: &[u8], output: &mut [u8], res: &mut [u8]) -> u64
    ensures told { result ≡ (host_converted false sheet.now output.old res.old).number }
    ensures said { output.new ≡ (host_converted false sheet.now output.old res.old).output }
    ensures held { res.new ≡ (host_converted false sheet.now output.old res.old).result }
{
    host::sheet_to_narrow(sheet, output, res)
}

// Replaces samples by late corrections; for one sample the highest revision counts.
#[unsafe(no_mangle)]
pub extern "C" fn correct_sheet(sheet: &[u8], list: &[u8], output: &mut [u8], res: &mut [u8]) -> u64
    ensures told { result ≡ (host_corrected sheet.now list.now output.old res.old).number }
    ensures said { output.new ≡ (host_corrected sheet.now list.now output.old res.old).output }
    ensures held { res.new ≡ (host_corrected sheet.now list.now output.old res.old).result }
{
    host::correct_sheet(sheet, list, output, res)
}
