//! The work of a block sends its tokens in packets.

ghost use Rattle.std.specs.Prelude.{◌≡◌, ◌<◌, [], ◌∷◌, true, length, IfOk};
ghost use Rattle.levels.specs.Reads.{children_at};
ghost use Rattle.ruled_wires.specs.Ends.{fresh_end, wire_stream};
ghost use Rattle.sam_model.specs.Accepted.{is_well_formed};
ghost use Rattle.wire_tests.specs.Scanning.{root_reference, scanned};

use crate::packets::put_all;
use block_threads::{OpenGate, work};
use levels::Storage;
use ruled_wires::{Rx, Streams, Tx, wire};
use sam_base::{FILE_MOST, Items, Name, Nums};
use sam_model::{Format, Tensor};
use scanner::Scanner;
use std::alloc::{AllocError, Global};
use std::marker::Brand;
use std::sync::Wait;
use std::test::Fail;
use stream_tokens::Token;
use tns_io::{append_number, read_tns};

/// How many children the level has.
const CHILDREN: u64 = 100;

/// A vector whose one level is compressed.
fn vector(alloc: Global) -> Result<Tensor, AllocError>
    ensures dims { IfOk result (λ t. t.dims ≡ 100 ∷ []) }
    ensures order { IfOk result (λ t. t.order ≡ 0 ∷ []) }
    ensures formed { IfOk result (λ t. is_well_formed t ≡ true) }
{
    Ok(Tensor {
        name: Name::new(alloc),
        dims: Nums::from_vec(vec![in alloc; CHILDREN]?),
        formats: Items::from_vec(vec![in alloc; Format::Compressed]?),
        order: Nums::from_vec(vec![in alloc; 0]?),
        file: Name::new(alloc),
    })
}

/// A file with an entry at each coordinate.
fn lines(alloc: Global) -> Result<Name, AllocError> {
    let mut text = Name::new(alloc);
    for n in 1..=CHILDREN {
        append_number(&mut text, n)?;
        text.append(b" 1\n")?;
    }
    Ok(text)
}

/// The vector with an entry at each coordinate, as it is stored.
fn stored(alloc: Global) -> Result<Storage, Fail>
    ensures { IfOk result (λ s. 0 < length (children_at s 1)) }
{
    let t = vector(alloc)?;
    let text = lines(alloc)?;
    if text.len() > FILE_MOST {
        return Err(Fail::from("the file is too long"));
    }
    let Ok(entries) = read_tns(alloc, text.as_bytes(), &t.dims) else {
        return Err(Fail::from("the file is refused"));
    };
    match Storage::build(alloc, &entries, &t) {
        Ok(storage) => Ok(storage),
        Err(_) => Err(Fail::from("the vector is not stored")),
    }
}

/// The end of a wire that holds the reference of the root and Done as one packet.
fn asked<W: Streams, R: Wait>(rt: &R, alloc: Global) -> Result<Vec<Rx<W>>, AllocError>
    requires { wire_stream W.streams 0 ≡ root_reference }
    ensures { IfOk result (λ ins. ins.items ≡ fresh_end 0 ∷ []) }
{
    let (tx, rx) = wire::<W>(alloc, 0, 16)?;
    let mut outs = Vec::with_capacity(alloc, 1)?;
    outs.push(tx)?;
    put_all(rt, outs.as_mut_slice(), &[Token::Item(0), Token::Done]);
    let mut ins = Vec::with_capacity(alloc, 1)?;
    ins.push(rx)?;
    Ok(ins)
}

/// Two ends, in this order.
fn two_of<W: Streams>(alloc: Global, first: Tx<W>, second: Tx<W>) -> Result<Vec<Tx<W>>, AllocError>
    ensures { IfOk result (λ outs. outs.items ≡ first ∷ second ∷ []) }
{
    let mut outs = Vec::with_capacity(alloc, 2)?;
    outs.push(first)?;
    outs.push(second)?;
    Ok(outs)
}

/// How many messages an end has sent.
fn messages_at<W: Streams>(outs: &[Tx<W>], port: usize) -> u64 {
    match outs.get(port) {
        Some(tx) => tx.messages(),
        None => 0,
    }
}

/// In how many messages a scanner sends what it puts on each output, where it scans the children of the root.
fn messages_of<W: Streams, R: Wait>(
    rt: &R,
    alloc: Global,
    storage: &Storage,
) -> Result<(u64, u64), AllocError>
    requires streams { W.streams ≡ scanned (children_at storage.now 1) }
    requires root { 0 < length (children_at storage.now 1) }
{
    let ins = asked::<W, R>(rt, alloc)?;
    let (coordinates, _coordinates_taken) = wire::<W>(alloc, 1, 16)?;
    let (references, _references_taken) = wire::<W>(alloc, 2, 16)?;
    let outs = two_of(alloc, coordinates, references)?;
    let worked = work(rt, &OpenGate, 0, Scanner::new(storage, 1), ins, outs);
    let outs = worked.outs.as_slice();
    Ok((messages_at(outs, 0), messages_at(outs, 1)))
}

#[test]
fn a_scanner_fills_its_packets(rt: HostRuntime) -> Result<(), Fail> {
    let storage = stored(rt.alloc())?;
    let (coordinates, references) = messages_of::<Brand, HostRuntime>(&rt, rt.alloc(), &storage)?;
    assert_eq!(rt; coordinates, 2);
    assert_eq!(rt; references, 2);
    Ok(())
}
