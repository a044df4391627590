// The calls of a file, before any is sent.
ghost use Rattle.std.specs.Prelude.{◌≡◌, ◌≤◌, length, take};
ghost use Rattle.desk.specs.Places.{lines_left};
ghost use Rattle.desk.specs.Report.{calls_in};

use crate::calls::call;
use crate::records::Records;
use reader::reading::Reader;
use tally::call::Call;

// Puts the calls of the records that are left into a slice, and answers how many there are.
// A count stands beside the slice, since the engine has no memory of its own and no vector fills a slice handed in.
pub fn gather(reader: Reader, calls: &mut [Call]) -> usize
    requires places { length (lines_left reader) ≤ length calls.old }
    ensures within { result ≤ length calls.new }
    ensures calls { take result calls.new ≡ calls_in reader.entry.at (lines_left reader.entry) }
{
    let mut count = 0;
    for (_, came) in Records::<true>(reader) {
        if let Some(call) = call(came) {
            calls[count] = call;
            count += 1;
        }
    }
    count
}
