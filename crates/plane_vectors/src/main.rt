// Replays the stored cases of packing and unpacking planes, the files in data/, and prints, for each file, how many gave the stored
// result. A function that gives another result, or a damaged data file, changes what is printed.
#![tactic(auto)]

mod plane;

use case_lines::file::replay_file;
use plane::Operation;

fn main(rt: HostRuntime) {
    replay_file(&rt, b"examples.txt", &Operation::Unpack);
    replay_file(&rt, b"examples-pack.txt", &Operation::Pack);
    replay_file(&rt, b"refusals.txt", &Operation::Unpack);
    replay_file(&rt, b"refusals-pack.txt", &Operation::Pack);
    replay_file(&rt, b"prefixes.txt", &Operation::RoundTrip);
    replay_file(&rt, b"plane-unpack.txt", &Operation::Unpack);
    replay_file(&rt, b"plane-unpack-boundaries.txt", &Operation::Unpack);
    replay_file(&rt, b"plane-pack.txt", &Operation::Pack);
    replay_file(&rt, b"plane-pack-boundaries.txt", &Operation::Pack);
}
