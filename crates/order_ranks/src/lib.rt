// The order of output: every function after those that it calls, by rank and then by source number,
// or the refusal of a ring, with the count of the functions from which a chain of calls reaches it.
// Callees and waiting functions are sets of 256 marks, four 64-bit words each; callees are a slice, with the set of each function. Functions are placed in
// rounds, as `Redirector::into_module` does in redirect.rs, of which this is a port: a round places those that call none that was waiting when it began.
#![tactic(auto)]

ghost use Rattle.std.specs.Prelude.{◌≡◌, true, false, ◌≤◌, ◌<◌, length};
ghost use Rattle.model.specs.Calls.{any};
ghost use Rattle.order_ranks.specs.Marks.{holds, marked, members, PutMark, NoCalls, Firsts, Below};
ghost use Rattle.order_ranks.specs.Placing.{Placeable, Placed, Leaves, Orders};

use base_refusals::Refusal;

// A set of functions, by their source numbers: mark k is bit k % 64 of word k / 64.
#[derive(Clone, Copy)]
pub struct FunctionSet(pub [u64; 4]);

// What a round leaves waiting, and where the output goes on.
#[derive(Clone, Copy)]
struct Round {
    waiting: FunctionSet,
    at: usize,
}

impl FunctionSet {
    // The set of the first n functions.
    pub fn first(n: usize) -> FunctionSet
        requires { n ≤ 256 }
        ensures { Firsts n result.0 }
    {
        let mut set = FunctionSet([0; 4]);
        for k in 0..n {
            set.join(k);
        }
        set
    }

    // Whether function k is in the set.
    pub fn has(&self, k: usize) -> bool
        requires { k < 256 }
        ensures { result ≡ holds self.now.0 k }
    {
        (self.0[k / 64] >> (k % 64)) % 2 == 1
    }

    // Function k joins the set.
    pub fn join(&mut self, k: usize)
        requires { k < 256 }
        ensures { PutMark true self.old.0 k self.new.0 }
    {
        self.0[k / 64] |= 1 << (k % 64);
    }

    // Function k leaves the set.
    pub fn leave(&mut self, k: usize)
        requires { (k < 256) × (holds self.old.0 k ≡ true) }
        ensures { PutMark false self.old.0 k self.new.0 }
    {
        self.0[k / 64] ^= 1 << (k % 64);
    }

    // How many functions the set has.
    fn count(&self) -> u32
        ensures { result ≡ length (members self.now.0) }
    {
        self.0.iter().map(|w| w.count_ones()).sum()
    }

    // Whether a function is in both sets.
    pub fn meets(&self, other: &FunctionSet) -> bool
        ensures { result ≡ any (members other.now.0) (holds self.now.0) }
    {
        self.0.iter().zip(&other.0).any(|(a, b)| a & b != 0)
    }
}

// No function calls any.
pub fn no_calls() -> [FunctionSet; 256]
    ensures { NoCalls result }
{
    [FunctionSet([0; 4]); 256]
}

// A round: those that wait and call none that was waiting when the round began go to `out` from
// `at` on, and wait no more. One whose last callee goes in this round waits for the next.
fn place(callees: &[FunctionSet], began: FunctionSet, out: &mut [u32; 256], at: usize) -> Round
    requires { Placeable (length callees.now) began.0 at }
    ensures { Placed (marked callees.now) (length callees.now) (members began.0) out.old at result.waiting.0 out.new result.at }
{
    let mut waiting = began;
    let mut k = at;
    for (f, calls) in callees.iter().enumerate() {
        if began.has(f) && !calls.meets(&began) {
            waiting.leave(f);
            out[k] = f as u32;
            k += 1;
        }
    }
    Round { waiting, at: k }
}

// Those of a set that no round places, of the functions whose callees are given: from each of them calls lead, through the set, to a ring.
pub fn left(callees: &[FunctionSet], began: FunctionSet) -> FunctionSet
    requires { (length callees.now ≤ 256) × Below (length callees.now) began.0 }
    ensures { Leaves (marked callees.now) (length callees.now) (members began.0) result.0 }
{
    let mut out = [0; 256];
    let mut waiting = began;
    // until a round places nothing: how many rounds there are is not known before
    loop {
        let round = place(callees, waiting, &mut out, 0);
        if round.at == 0 {
            return waiting;
        }
        waiting = round.waiting;
    }
}

// The order of the functions whose callees are given, as their source numbers, goes to the start of `out`; or the refusal has the
// count of those left waiting for a ring.
pub fn order(callees: &[FunctionSet], out: &mut [u32; 256]) -> Result<(), Refusal>
    requires { length callees.now ≤ 256 }
    ensures { Orders (marked callees.now) (length callees.now) out.old result out.new }
{
    let n = callees.len();
    let mut waiting = FunctionSet::first(n);
    let mut at = 0;
    // a round places as many as it can, which no range tells
    while at < n {
        let round = place(callees, waiting, out, at);
        if round.at == at {
            return Err(Refusal::Ring(waiting.count()));
        }
        waiting = round.waiting;
        at = round.at;
    }
    Ok(())
}
