// Replays the stored cases of unpacking pictures, the files in data/, and prints, for each file, how many gave the stored result. A
// function that gives another result, or a damaged data file, changes what is printed.
#![tactic(auto)]

mod picture;

use case_lines::file::replay_file;
use picture::{CaseKind, ImageKind, SourceKind};

// The four kinds of files.
const PICTURE: CaseKind = CaseKind {
    source: SourceKind::Body,
    image: ImageKind::Rgb24,
};

const PIXELS: CaseKind = CaseKind {
    source: SourceKind::Body,
    image: ImageKind::Pixels,
};

const STREAM: CaseKind = CaseKind {
    source: SourceKind::Stream,
    image: ImageKind::Rgb24,
};

const STREAM_PIXELS: CaseKind = CaseKind {
    source: SourceKind::Stream,
    image: ImageKind::Pixels,
};

fn main(rt: HostRuntime) {
    replay_file(&rt, b"examples-picture.txt", &PICTURE);
    replay_file(&rt, b"examples-pixels.txt", &PIXELS);
    replay_file(&rt, b"examples-stream.txt", &STREAM);
    replay_file(&rt, b"examples-stream-pixels.txt", &STREAM_PIXELS);
    replay_file(&rt, b"refusals-picture.txt", &PICTURE);
    replay_file(&rt, b"refusals-pixels.txt", &PIXELS);
    replay_file(&rt, b"refusals-stream.txt", &STREAM);
    replay_file(&rt, b"refusals-stream-pixels.txt", &STREAM_PIXELS);
    replay_file(&rt, b"picture-unpack.txt", &PICTURE);
    replay_file(&rt, b"pixels-unpack.txt", &PIXELS);
    replay_file(&rt, b"stream-unpack.txt", &STREAM);
    replay_file(&rt, b"stream-pixels-unpack.txt", &STREAM_PIXELS);
}
