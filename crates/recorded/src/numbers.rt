// The number functions against recorded cases of three words: the function's number, the argument's bits, the result's bits.
use super::file::{EndsEarly, Words};
use super::replay;
use super::replay::SHOWN;
use std::fmt;
use std::io::Stdout;

// The functions in the order of their lines.
const FUNCTIONS: [Function; 9] = [
    Function::Log2,
    Function::Log10,
    Function::Exp2,
    Function::Exp,
    Function::Exp10,
    Function::Exp60,
    Function::Sqrt,
    Function::Narrow,
    Function::Round,
];

// The functions, each with its number in a recorded file.
#[derive(Clone, Copy)]
enum Function {
    Log2 = 1,
    Log10 = 2,
    Exp2 = 3,
    Exp = 4,
    Exp10 = 5,
    Exp60 = 6,
    Sqrt = 7,
    Narrow = 8,
    Round = 9,
}

// The cases of a function, and how many of them differ.
#[derive(Clone, Copy)]
struct Tally {
    function: Function,
    cases: u64,
    differ: u64,
}

// The cases of each function, and those of unknown functions.
#[derive(Clone, Copy)]
struct Numbers {
    out: Stdout,
    tallies: [Tally; 9],
    unknown: u64,
}

impl Function {
    // The bits of the function's result at the argument with these bits.
    fn result(self, argument: u64) -> u64 {
        let x = float::from_bits(argument);
        match self {
            Function::Log2 => float::to_bits(logarithm::log2(x)),
            Function::Log10 => float::to_bits(logarithm::log10(x)),
            Function::Exp2 => float::to_bits(power::exp2(x)),
            Function::Exp => float::to_bits(power::exp(x)),
            Function::Exp10 => float::to_bits(power::exp10(x)),
            Function::Exp60 => float::to_bits(power::exp60(x)),
            Function::Sqrt => float::to_bits(root::sqrt(x)),
            Function::Narrow => u64::from(float::to_bits32(narrow::narrow(x))),
            Function::Round => float::to_bits(float::round(x)),
        }
    }
}

impl fmt::Display for Function {
    fn fmt<W: fmt::Write>(&self, f: &mut fmt::Formatter<W>) -> fmt::Result {
        let name = match self {
            Function::Log2 => "log2",
            Function::Log10 => "log10",
            Function::Exp2 => "exp2",
            Function::Exp => "exp",
            Function::Exp10 => "exp10",
            Function::Exp60 => "exp60",
            Function::Sqrt => "sqrt",
            Function::Narrow => "narrow",
            Function::Round => "round",
        };
        write!(f, "{name}")
    }
}

impl Tally {
    fn new(function: Function) -> Tally {
        Tally {
            function,
            cases: 0,
            differ: 0,
        }
    }

    // Counts a case, and counts and shows it where the result differs.
    fn compare(&mut self, out: Stdout, argument: u64, recorded: u64) {
        let computed = self.function.result(argument);
        if computed != recorded {
            if self.differ < SHOWN {
                let function = self.function;
                let _ = println!(out;
                    "{function} of {argument:016x}: recorded {recorded:016x}, computed {computed:016x}"
                );
            }
            self.differ = self.differ.saturating_add(1);
        }
        self.cases = self.cases.saturating_add(1);
    }
}

impl Numbers {
    fn new(out: Stdout) -> Numbers {
        Numbers {
            out,
            tallies: FUNCTIONS.map(Tally::new),
            unknown: 0,
        }
    }

    // Compares the next case. A loop and no `find`: of the tally that it lends nothing says that it is still the table's.
    fn case(&mut self, words: &mut Words) -> Result<(), EndsEarly> {
        let [number, argument, recorded] = words.array::<3>()?;
        let out = self.out;
        for tally in &mut self.tallies {
            if tally.function as u64 == number {
                tally.compare(out, argument, recorded);
                return Ok(());
            }
        }
        self.unknown = self.unknown.saturating_add(1);
        Ok(())
    }

    // A line for each function, and one for unknown functions where there are any.
    fn print(self) {
        for tally in self.tallies {
            let function = tally.function;
            let cases = tally.cases;
            let differ = tally.differ;
            let _ = println!(self.out; "{function}: {cases} cases, {differ} differ");
        }
        if 0 < self.unknown {
            let unknown = self.unknown;
            let _ = println!(self.out; "unknown functions: {unknown} cases, 0 differ");
        }
    }
}

pub fn all(rt: &HostRuntime, name: &str) {
    let mut numbers = Numbers::new(rt.stdout());
    let _ = replay::records(rt, name, |replay| numbers.case(&mut replay.words));
    numbers.print();
}
