//! `verify`: graphs that are handed in, each with the first rule that it breaks.

use crate::transcripts::replayed;
use std::alloc::Global;
use std::test::Fail;

/// A copy, and the graph that `lower` writes of it.
const COPY: &str = r#"--- p.sam
| tensor b 4 c 1 b.tns
| result x 4 c 1
| compute x(i) = b(i)
| loops i
--- g.json
| {"blocks":[{"arg":[],"ins":[],"kind":"root","name":"","outs":[0]},
| {"arg":[1],"ins":[0],"kind":"scan","name":"b","outs":[1,2]},
| {"arg":[],"ins":[2],"kind":"array","name":"b","outs":[3]},
| {"arg":[],"ins":[1,3],"kind":"dropvalue","name":"","outs":[4,5]},
| {"arg":[1],"ins":[4],"kind":"writelevel","name":"x","outs":[]},
| {"arg":[],"ins":[5],"kind":"writevalue","name":"x","outs":[]}],"channels":[{"from":[0,0],"label":"root","to":[1,0]},
| {"from":[1,0],"label":"product 0 1 1 coordinate","to":[3,0]},
| {"from":[1,1],"label":"product 0 1 1 rank 0","to":[2,0]},
| {"from":[2,0],"label":"product 0 1 1 factor 0","to":[3,1]},
| {"from":[3,0],"label":"reduced 0 0 1 1 coordinate","to":[4,0]},
| {"from":[3,1],"label":"reduced 0 0 1 1 value","to":[5,0]}]}
"#;

/// Changes of that graph, a line each: what is replaced, by what, and what is told then. They are none, a label that the array's kind
/// doesn't allow, two channels from one port, a writer of a level that the result hasn't, and no writer of its values.
const CHANGES: &str = r#"factor 0~factor 0~> verified
factor 0~whole~! sam: graph block 2: Labels|= 11
"from":[3,1]~"from":[3,0]~! sam: graph block 3: Ports|= 11
"arg":[1],"ins":[4]~"arg":[2],"ins":[4]~! sam: graph block 4: Writers|= 11
"kind":"writevalue","name":"x"~"kind":"drain","name":""~! sam: graph block 6: Writers|= 11
"#;

/// The transcript of a change.
fn changed(alloc: Global, change: &str) -> Result<String, Fail> {
    let mut parts = change.split_terminator('~');
    match (parts.next(), parts.next(), parts.next()) {
        (Some(from), Some(to), Some(told)) => {
            let mut text = COPY.replace(alloc, from, to)?;
            text.push_str("$ verify p.sam g.json\n")?;
            text.push_str(told.replace(alloc, "|", "\n")?.as_str())?;
            text.push('\n')?;
            Ok(text)
        }
        _ => Err(Fail::from("no change")),
    }
}

#[test]
fn changes_may_break_rules(rt: HostRuntime) -> Result<(), Fail> {
    for change in CHANGES.split_terminator('\n') {
        let wanted = changed(rt.alloc(), change)?;
        let told = replayed(&rt, rt.alloc(), wanted.as_str())?;
        assert!(rt; told.as_str() == wanted.as_str(), "{told}");
    }
    Ok(())
}

const GRAPHS: &str = r#"# blocks in another order, keys that nothing asks for, and blanks
--- p.sam
| tensor b 4 c 1 b.tns
| result x 4 c 1
| compute x(i) = b(i)
| loops i
--- g.json
| {"made by": "hand", "channels": [
| {"from": [5, 0], "label": "root", "to": [4, 0], "width": 1.5},
| {"from": [4, 0], "label": "product 0 1 1 coordinate", "to": [2, 0]},
| {"from": [4, 1], "label": "product 0 1 1 rank 0", "to": [3, 0]},
| {"from": [3, 0], "label": "product 0 1 1 factor 0", "to": [2, 1]},
| {"from": [2, 0], "label": "reduced 0 0 1 1 coordinate", "to": [1, 0]},
| {"from": [2, 1], "label": "reduced 0 0 1 1 value", "to": [0, 0]}], "blocks": [
| {"kind": "writevalue", "arg": [], "name": "x", "ins": [5], "outs": []},
| {"kind": "writelevel", "arg": [1], "name": "x", "ins": [4], "outs": []},
| {"kind": "dropvalue", "arg": [], "name": "", "ins": [1, 3], "outs": [4, 5]},
| {"kind": "array", "arg": [], "name": "b", "ins": [2], "outs": [3]},
| {"kind": "scan", "arg": [1], "name": "b", "ins": [0], "outs": [1, 2]},
| {"kind": "root", "arg": [], "name": "", "ins": [], "outs": [0]}]}
$ verify p.sam g.json
> verified
# a channel that no port lists, and behind it a cast that reads what it writes
--- g.json
| {"blocks":[{"arg":[],"ins":[],"kind":"root","name":"","outs":[0]},
| {"arg":[1],"ins":[0],"kind":"scan","name":"b","outs":[1,2]},
| {"arg":[],"ins":[2],"kind":"array","name":"b","outs":[3]},
| {"arg":[],"ins":[1,3],"kind":"dropvalue","name":"","outs":[4,5]},
| {"arg":[1],"ins":[4],"kind":"writelevel","name":"x","outs":[]},
| {"arg":[],"ins":[5],"kind":"writevalue","name":"x","outs":[]},
| {"arg":[1],"ins":[7],"kind":"cast","name":"","outs":[7]}],"channels":[{"from":[0,0],"label":"root","to":[1,0]},
| {"from":[1,0],"label":"product 0 1 1 coordinate","to":[3,0]},
| {"from":[1,1],"label":"product 0 1 1 rank 0","to":[2,0]},
| {"from":[2,0],"label":"product 0 1 1 factor 0","to":[3,1]},
| {"from":[3,0],"label":"reduced 0 0 1 1 coordinate","to":[4,0]},
| {"from":[3,1],"label":"reduced 0 0 1 1 value","to":[5,0]},
| {"from":[1,0],"label":"root","to":[3,0]},
| {"from":[6,0],"label":"root","to":[6,0]}]}
$ verify p.sam g.json
! sam: graph channel 6: Stray
= 11
--- g.json
| {"blocks":[{"arg":[],"ins":[],"kind":"root","name":"","outs":[0]},
| {"arg":[1],"ins":[0],"kind":"scan","name":"b","outs":[1,2]},
| {"arg":[],"ins":[2],"kind":"array","name":"b","outs":[3]},
| {"arg":[],"ins":[1,3],"kind":"dropvalue","name":"","outs":[4,5]},
| {"arg":[1],"ins":[4],"kind":"writelevel","name":"x","outs":[]},
| {"arg":[],"ins":[5],"kind":"writevalue","name":"x","outs":[]},
| {"arg":[1],"ins":[6],"kind":"cast","name":"","outs":[6]}],"channels":[{"from":[0,0],"label":"root","to":[1,0]},
| {"from":[1,0],"label":"product 0 1 1 coordinate","to":[3,0]},
| {"from":[1,1],"label":"product 0 1 1 rank 0","to":[2,0]},
| {"from":[2,0],"label":"product 0 1 1 factor 0","to":[3,1]},
| {"from":[3,0],"label":"reduced 0 0 1 1 coordinate","to":[4,0]},
| {"from":[3,1],"label":"reduced 0 0 1 1 value","to":[5,0]},
| {"from":[6,0],"label":"root","to":[6,0]}]}
$ verify p.sam g.json
! sam: graph block 6: Cycle
= 11
# no graph: nothing at all, a number that isn't whole, a tensor that isn't declared
--- g.json
$ verify p.sam g.json
! sam: graph refused
= 3
--- g.json
| {"blocks":[{"arg":[],"ins":[],"kind":"root","name":"","outs":[0.0]}],"channels":[]}
$ verify p.sam g.json
same
--- g.json
| {"blocks":[{"arg":[],"ins":[2],"kind":"array","name":"c","outs":[3]}],"channels":[]}
$ verify p.sam g.json
same
--- g.json
| {"blocks":[],"channels":[]}
$ verify p.sam g.json
! sam: graph block 0: Writers
= 11
# files in their order, and words
$ verify p.sam h.json
! sam: missing h.json
= 5
$ verify q.sam h.json
! sam: missing q.sam
= 5
$ verify p.sam
! sam: usage: sam COMMAND SUBJECT [GRAPH] [--capacity N] [--of C=N,..] [--schedule FILE] [--fused]
= 2
$ verify p.sam g.json --fused
same
$ check p.sam g.json
same
"#;

#[test]
fn graphs_are_verified(rt: HostRuntime) -> Result<(), Fail> {
    let told = replayed(&rt, rt.alloc(), GRAPHS)?;
    assert!(rt; told.as_str() == GRAPHS, "{told}");
    Ok(())
}
