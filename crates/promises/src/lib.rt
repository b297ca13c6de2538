// Every promise beside the contracts of the calls, as one list. The functions do nothing: their contracts are the promises, so that these are part
// of the verdict.
#![tactic(auto)]

ghost use Rattle.demands.specs.Demands.{Demands, EventDemands};
ghost use Rattle.rules.specs.Rules as chain;
ghost use Rattle.rules.specs.Rules.{rules};
ghost use Rattle.rules.specs.Rust.{rust};
ghost use Rattle.rules.specs.RustState.{stored};
ghost use Rattle.rules.specs.Loudness.{loudness, ReadsBs1770};
ghost use Rattle.rules.specs.Mono.{AsBase};
ghost use Rattle.runaway.specs.Runaway.{RunawayExact};
ghost use Rattle.image.specs.Port.{images, port};
ghost use Rattle.freightpetal.specs.Images.{ImageLaws};
ghost use Rattle.freightpetal_c.specs.Laws.{LentLaws};
ghost use Rattle.dead_units.specs.Dead as chains;
ghost use Rattle.freightpetal.specs.Dead as savers;
ghost use Rattle.ducklines.specs.Reads.{AnyReads};
ghost use Rattle.ducklines.specs.Layouts.{RunLayouts};
ghost use Rattle.layout.specs.Laws.{LayoutLaws};
ghost use Rattle.channels.specs.Laws.{BedLaws};
ghost use Rattle.beds.specs.Laws.{NamedBedLaws};
ghost use Rattle.logarithm.specs.Laws.{SignificandLaws};
ghost use Rattle.promises.specs.StandIns.{StandIns};
ghost use Rattle.promises.specs.Loudness.{Loudness};
ghost use Rattle.promises.specs.Voice.{Voice};
ghost use Rattle.ratio.specs.Laws.{DuckerLaws};
ghost use Rattle.promises.specs.Examples.{Examples};

// ---- the whole

// The three demands over every list of frames, settings calls, resets, layout calls, saves and restores.
pub fn demands()
    ensures { Demands rules images port rust loudness stored }
{}

// Demands 1 and 2 over every list of frames, settings calls, resets and layout calls, for the chain alone.
pub fn events()
    ensures { EventDemands rules chain.port rust loudness stored }
{}

// In every frame that passes the strands read, and the ducker is given, what BS.1770 says of all samples since a strand's last reset,
// the bed's of all its channels since its last layout call, unrounded.
pub fn readings()
    ensures { ReadsBs1770 }
{}

// With one channel at 0, 0 every call on a chain gets what it got before beds had layouts: from every such chain, over every list of frames, settings
// calls and resets.
pub fn one_channel()
    ensures { AsBase }
{}

// Refusal 4 of a frame: exactly where a number that it would store, answer or hand on isn't finite.
pub fn runaway()
    ensures { RunawayExact }
{}

// What is promised of images beside the demands.
pub fn image_laws()
    ensures { ImageLaws }
{}

// What the calls on a lent image come to, over every list of them.
pub fn lent_laws()
    ensures { LentLaws }
{}

// No unit that meets the demands answers one reduction to every frame, repeats its answer to the first, invents onsets, or refuses every frame.
pub fn dead_units()
    ensures { chains.NoDeadUnits }
{}

// Nor does one that writes one fixed image, or leaves a chain as it is at every restore.
pub fn dead_images()
    ensures { savers.NoDeadUnits }
{}

// The text that duckline writes doesn't depend on how many bytes a read brings.
pub fn any_reads()
    ensures { AnyReads }
{}

// duckline's chain is fresh but for the bed's layout, its frames keep that, and none of them is short.
pub fn run_layouts()
    ensures { RunLayouts }
{}

// ---- its parts

// The bounds of logarithm and power, and that the root is the nearest f64 and `round` the nearest whole number.
pub fn stand_ins()
    ensures { StandIns }
{}

// Whenever a squaring of the logarithm starts its significand has 31 binary digits, and the bits that follow come of it.
#[tactic(auto, using(logarithm::proofs::Results::significand_laws))]
pub fn significand()
    ensures { SignificandLaws }
{}

// The level reads what BS.1770 defines, and keeps what the Rust keeps.
pub fn loudness()
    ensures { Loudness }
{}

// What a layout's words mean, what is stored of them, and the weights at each boundary.
pub fn layout_laws()
    ensures { LayoutLaws }
{}

// The level of several channels reads what BS.1770 defines, keeps what the Rust keeps, and is the level of one channel where there is one.
pub fn bed_laws()
    ensures { BedLaws }
{}

// The layouts of mono, stereo, 5.1 and 7.1 are accepted, with their weights.
pub fn named_beds()
    ensures { NamedBedLaws }
{}

// A strand answers as the Rust does, and stays one that an image can hold.
pub fn voice()
    ensures { Voice }
{}

// The ducker answers as the Rust does, within its bounds.
pub fn ducker()
    ensures { DuckerLaws }
{}

// The examples of the specification that are marked P.
pub fn examples()
    ensures { Examples }
{}
