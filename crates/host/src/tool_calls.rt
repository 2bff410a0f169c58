// The tools for a host, each by a name that its calls in C have.
ghost use Rattle.std.specs.Prelude.{◌≡◌, true, false};
ghost use Rattle.tools.specs.Tools.{host_converted, host_corrected};

// Lays a sheet out wide.
pub fn sheet_to_wide(sheet: &[u8], output: &mut [u8], res: &mut [u8]) -> u64
    ensures told { result ≡ (host_converted true sheet.now output.old res.old).number }
    ensures said { output.new ≡ (host_converted true sheet.now output.old res.old).output }
    ensures held { res.new ≡ (host_converted true sheet.now output.old res.old).result }
{
    tools::convert_sheet(sheet, true, output, res)
}

// Lays a sheet of at most 64 places out narrow.
pub fn sheet_to_narrow(sheet: &[u8], output: &mut [u8], res: &mut [u8]) -> u64
    ensures told { result ≡ (host_converted false sheet.now output.old res.old).number }
    ensures said { output.new ≡ (host_converted false sheet.now output.old res.old).output }
    ensures held { res.new ≡ (host_converted false sheet.now output.old res.old).result }
{
    tools::convert_sheet(sheet, false, output, res)
}

// Replaces samples by late corrections; for one sample the highest revision counts.
pub fn correct_sheet(sheet: &[u8], list: &[u8], output: &mut [u8], res: &mut [u8]) -> u64
    ensures told { result ≡ (host_corrected sheet.now list.now output.old res.old).number }
    ensures said { output.new ≡ (host_corrected sheet.now list.now output.old res.old).output }
    ensures held { res.new ≡ (host_corrected sheet.now list.now output.old res.old).result }
{
    tools::correct_sheet(sheet, list, output, res)
}
