// Replays what the Rust answered, as compare/record wrote it to data/, through the port, and says how many answers differ by their bits.
#![tactic(auto)]

mod decision;
mod ducker;
mod file;
mod filter;
mod frames;
mod heard;
mod kind;
mod lists;
mod numbers;
mod replay;
mod seed;
mod signal;
mod signals;
mod strands;

use decision::Decisions;
use detector::FeatureDetector;
use ducker::Ducker;
use filter::Filter;
use heard::Heard;
use level::Level;

fn main(rt: HostRuntime) {
    numbers::all(&rt, "numbers");
    replay::module(&rt, "filter", "signals", "outputs", lists::one::<Filter>);
    replay::module(
        &rt,
        "level",
        "signals",
        "readings",
        lists::one::<Heard<Level>>,
    );
    replay::module(
        &rt,
        "detector",
        "signals",
        "frames",
        lists::one::<Heard<FeatureDetector>>,
    );
    replay::module(&rt, "decision", "lists", "frames", lists::one::<Decisions>);
    replay::module(&rt, "ducker", "lists", "frames", lists::one::<Ducker>);
    frames::module(&rt, "frames");
    frames::module(&rt, "surround");
}
