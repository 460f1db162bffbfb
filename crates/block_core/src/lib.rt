//! What every block of the machine does: it takes and puts tokens one at a time.
#![tactic(auto)]

ghost use Rattle.std.specs.Prelude.{◌≡◌, ℕ, ◌+◌, ◌≤◌, ◌<◌, List, [], ◌∷◌, ◌++◌, Bool, true, false, length, take, drop, slice_get, Some, IsSome, IsOk, IfOk, IfErr};
ghost use Rattle.stream_tokens.specs.declared.Token.{Token as Tok};
ghost use Rattle.block_core.specs.Move.{Move, Taking, Putting, wish_of, takes};
ghost use Rattle.block_core.specs.Bursts.{Poured, MayPour, MayTakeNext, MayPutNext, MayRelay, relayed};
ghost use Rattle.block_core.specs.Agree.{AgreeFor};
ghost use Rattle.block_core.specs.Steps.{MayTake, MayPut, StandsAfterTake, StandsAfterPut};
ghost use Rattle.block_core.specs.Ports.{Streams};
ghost use Rattle.block_core.specs.Kind.{Kind, Fits, outputs, moves, ins_of, outs_of};
ghost use Rattle.block_core.specs.Flows.{Passes};

mod arithmetic;
mod refusing;

pub use arithmetic::plus;
pub use refusing::Refusing;
use std::alloc::AllocError;
use stream_tokens::Token;

/// What a block would do next.
#[derive(Clone, Copy, Debug, Drop, PartialEq, Eq)]
pub enum Wish {
    /// Take a token from this input port.
    Take(u32),
    /// Put this token on this output port.
    Put(u32, Token),
    /// Nothing: all streams are through.
    Finished,
}

/// The ends of the channels at a block's ports.
pub trait Ports {
    /// These are the moves that the block has yet to make, and what waits at its inputs is what they take next.
    ghost fed: { Self → List Move → Type 0 };

    /// The tokens that wait at an input.
    ghost waits: { Self → ℕ → List Tok };

    /// The same ends, whatever was taken and put.
    ghost same: { Self → Self → Type 0 };

    /// Just these moves were made, one after another.
    ghost did: { Self → List Move → Self → Type 0 };

    fn front(&self, port: u32) -> Option<Token>
        requires { MayTakeNext (fed self.now) port }
        ensures { result ≡ slice_get (waits self.now port) 0 };

    /// Some of the tokens that wait at an input, from the first on.
    fn waiting(&self, port: u32) -> &[Token]
        requires { MayTakeNext (fed self.now) port }
        ensures { ((rest : List Tok) × (result.now ++ rest ≡ waits self.now port)) };

    /// Takes tokens from an input, and puts one of these on an output after each, as far as there is room.
    fn relay(&mut self, from: u32, to: u32, out: &[Token]) -> Result<usize, AllocError>
        requires may { MayRelay (fed self.old) from to (take (length out.now) (waits self.old from)) out.now }
        requires enough { length out.now ≤ length (waits self.old from) }
        ensures same_ends { same self.old self.new }
        ensures relayed { IfOk result (λ k. (k ≤ length out.now) × did self.old (relayed from to (take k (waits self.old from)) (take k out.now)) self.new) }
        ensures refused { IfErr result (λ _. ((k : ℕ) × (k ≤ length out.now) × did self.old (relayed from to (take k (waits self.old from)) (take k out.now)) self.new)) };

    fn pop(&mut self, port: u32)
        requires may { MayTakeNext (fed self.old) port }
        requires waits { IsSome (slice_get (waits self.old port) 0) }
        ensures same_ends { same self.old self.new }
        ensures taken { (t : Tok) → slice_get (waits self.old port) 0 ≡ Some t → did self.old (Taking port t ∷ []) self.new };

    fn put(&mut self, port: u32, t: Token) -> Result<bool, AllocError>
        requires { MayPutNext (fed self.old) port t }
        ensures same_ends { same self.old self.new }
        ensures put { result ≡ Ok true → did self.old (Putting port t ∷ []) self.new }
        ensures full { result ≡ Ok false → did self.old [] self.new }
        ensures refused { IfErr result (λ _. did self.old [] self.new) };

    ghost same_none: { (p : Self) → same p p };

    ghost same_then: { (p q r : Self) → same p q → same q r → same p r };

    ghost did_none: { (p : Self) → did p [] p };

    ghost did_then: { (p q r : Self) (xs ys : List Move) → did p xs q → did q ys r → did p (xs ++ ys) r };

    ghost fed_after: { (p q : Self) (xs rest : List Move) → did p xs q → fed p (xs ++ rest) → fed q rest };

    ghost comes: { (p : Self) (port : ℕ) (t : Tok) (rest : List Move) → fed p (Taking port t ∷ rest) → ((more : List Tok) × (waits p port ++ more ≡ takes port (Taking port t ∷ rest))) };
}

/// A block, which takes and puts one token at a time.
///
/// A block knows neither its whole inputs nor how many moves it made, so each clause speaks of all whole inputs `s` and
/// all numbers `n` of moves at which the block may stand as it is.
pub trait BlockStep {
    /// The block's kind, with its numbers: it gives the block function, the moves and the number of ports.
    ghost kind: { Self → Kind };

    /// Whether `take` may find no memory.
    ghost may_refuse: { Self → Bool };

    /// For these whole inputs, after so many moves, the block may be as it is.
    ghost stands: { Self → Streams → ℕ → Type 0 };

    /// The number of input ports.
    fn ins(&self) -> u32
        ensures { result ≡ ins_of (kind self.now) };

    /// The number of output ports.
    fn outs(&self) -> u32
        ensures { result ≡ outs_of (kind self.now) };

    /// The next move: a take with its port, a put with its port and token, or none.
    fn wish(&self) -> Wish
        ensures { (s : Streams) (n : ℕ) → stands self.now s n → result ≡ wish_of (drop n (moves (kind self.now) s)) };

    /// Takes the next token of an input; the wish was to take there. Without memory the block stays as it was.
    fn take(&mut self, port: u32, t: Token) -> Result<(), AllocError>
        requires { MayTake (stands self.old) (kind self.old) port t }
        ensures same_kind { kind self.new ≡ kind self.old }
        ensures same_refusal { may_refuse self.new ≡ may_refuse self.old }
        ensures moved { IfOk result (λ _. StandsAfterTake (stands self.old) (stands self.new) (kind self.old) port t) }
        ensures refused { IfErr result (λ _. self.new ≡ self.old) }
        ensures sure { may_refuse self.old ≡ false → IsOk result };

    /// The token that the block wished to put was put.
    fn did_put(&mut self)
        requires { MayPut (stands self.old) (kind self.old) }
        ensures same_kind { kind self.new ≡ kind self.old }
        ensures same_refusal { may_refuse self.new ≡ may_refuse self.old }
        ensures moved { StandsAfterPut (stands self.old) (stands self.new) (kind self.old) };

    /// Some moves, one after another, at most so many. The answer says whether there was one.
    fn burst<P: Ports>(&mut self, ports: &mut P, most: u32) -> Result<bool, AllocError>
        requires { MayPour kind stands P.fed self.old ports.old }
        ensures same_kind { kind self.new ≡ kind self.old }
        ensures same_refusal { may_refuse self.new ≡ may_refuse self.old }
        ensures same_ends { P.same ports.old ports.new }
        ensures poured { IfOk result (λ went. Poured kind stands P.fed P.did self.old ports.old self.new ports.new went) }
        ensures refused { IfErr result (λ _. Poured kind stands P.fed P.did self.old ports.old self.new ports.new false) }
    {
        self.one_by_one(ports, most)
    }

    /// Some moves, one wish after another, at most so many. The answer says whether there was one.
    fn one_by_one<P: Ports>(&mut self, ports: &mut P, most: u32) -> Result<bool, AllocError>
        requires { MayPour kind stands P.fed self.old ports.old }
        ensures same_kind { kind self.new ≡ kind self.old }
        ensures same_refusal { may_refuse self.new ≡ may_refuse self.old }
        ensures same_ends { P.same ports.old ports.new }
        ensures poured { IfOk result (λ went. Poured kind stands P.fed P.did self.old ports.old self.new ports.new went) }
        ensures refused { IfErr result (λ _. Poured kind stands P.fed P.did self.old ports.old self.new ports.new false) }
    {
        let mut went = false;
        for _ in 0..most {
            match self.wish() {
                Wish::Take(port) => {
                    let Some(t) = ports.front(port) else {
                        return Ok(went);
                    };
                    self.take(port, t)?;
                    ports.pop(port);
                }
                Wish::Put(port, t) => {
                    if !ports.put(port, t)? {
                        return Ok(went);
                    }
                    self.did_put();
                }
                Wish::Finished => return Ok(went),
            }
            went = true;
        }
        Ok(went)
    }

    /// A block stands on whole inputs that fit.
    ghost stands_fits: { (b : Self) (s : Streams) (n : ℕ) → stands b s n → Fits (kind b) s };

    /// A block stands within the moves of its kind, so with each move one fewer remains.
    ghost stands_within: { (b : Self) (s : Streams) (n : ℕ) → stands b s n → n ≤ length (moves (kind b) s) };

    /// Wherever two whole inputs agree on the tokens taken so far, the wish is the same.
    ghost agrees: { (b : Self) (s r : Streams) (n : ℕ) → stands b s 0 → stands b r 0 → AgreeFor n (moves (kind b) s) (moves (kind b) r) → wish_of (drop n (moves (kind b) s)) ≡ wish_of (drop n (moves (kind b) r)) };
}

/// The moves of each kind take exactly its whole inputs and put exactly its whole outputs, in order port by port. They
/// are as many as all those streams have tokens, and the wish is Finished exactly where all streams are through. There
/// are as many inputs and outputs as the kind says, and each move is on one of them.
pub fn moves_pass()
    ensures passes { (kind : Kind) (ins : Streams) → Fits kind ins → Passes ins (moves kind ins) (outputs kind ins) }
    ensures all_inputs { (kind : Kind) (ins : Streams) → Fits kind ins → length ins ≡ ins_of kind }
    ensures all_outputs { (kind : Kind) (ins : Streams) → length (outputs kind ins) ≡ outs_of kind }
    ensures takes_on_inputs { (kind : Kind) (ins : Streams) (n port : ℕ) (t : Token)
        → Fits kind ins → slice_get (moves kind ins) n ≡ Some (Taking port t) → port < ins_of kind }
    ensures puts_on_outputs { (kind : Kind) (ins : Streams) (n port : ℕ) (t : Token)
        → Fits kind ins → slice_get (moves kind ins) n ≡ Some (Putting port t) → port < outs_of kind }
{}
