//! The graphs that `lower` writes.

use crate::transcripts::replayed;
use std::test::Fail;

const GRAPHS: &str = r#"# a copy
--- p.sam
| tensor b 4 c 1 b.tns
| result x 4 c 1
| compute x(i) = b(i)
| loops i
$ lower p.sam
> {"blocks":[{"arg":[],"ins":[],"kind":"root","name":"","outs":[0]},
>+ {"arg":[1],"ins":[0],"kind":"scan","name":"b","outs":[1,2]},
>+ {"arg":[],"ins":[2],"kind":"array","name":"b","outs":[3]},
>+ {"arg":[],"ins":[1,3],"kind":"dropvalue","name":"","outs":[4,5]},
>+ {"arg":[1],"ins":[4],"kind":"writelevel","name":"x","outs":[]},
>+ {"arg":[],"ins":[5],"kind":"writevalue","name":"x","outs":[]}],"channels":[{"from":[0,0],"label":"root","to":[1,0]},
>+ {"from":[1,0],"label":"product 0 1 1 coordinate","to":[3,0]},
>+ {"from":[1,1],"label":"product 0 1 1 rank 0","to":[2,0]},
>+ {"from":[2,0],"label":"product 0 1 1 factor 0","to":[3,1]},
>+ {"from":[3,0],"label":"reduced 0 0 1 1 coordinate","to":[4,0]},
>+ {"from":[3,1],"label":"reduced 0 0 1 1 value","to":[5,0]}]}
# a product of two vectors: 11 blocks and 15 channels
--- p.sam
| tensor b 4 c 1 b.tns
| tensor c 4 c 1 c.tns
| result x 4 c 1
| compute x(i) = b(i) * c(i)
| loops i
$ lower p.sam
> {"blocks":[{"arg":[],"ins":[],"kind":"root","name":"","outs":[0]},
>+ {"arg":[1],"ins":[13],"kind":"scan","name":"b","outs":[1,2]},
>+ {"arg":[1],"ins":[14],"kind":"scan","name":"c","outs":[3,4]},
>+ {"arg":[1,1],"ins":[1,2,3,4],"kind":"intersect","name":"","outs":[5,6,7]},
>+ {"arg":[],"ins":[6],"kind":"array","name":"b","outs":[8]},
>+ {"arg":[],"ins":[7],"kind":"array","name":"c","outs":[9]},
>+ {"arg":[],"ins":[8,9],"kind":"mul","name":"","outs":[10]},
>+ {"arg":[],"ins":[5,10],"kind":"dropvalue","name":"","outs":[11,12]},
>+ {"arg":[1],"ins":[11],"kind":"writelevel","name":"x","outs":[]},
>+ {"arg":[],"ins":[12],"kind":"writevalue","name":"x","outs":[]},
>+ {"arg":[2],"ins":[0],"kind":"cast","name":"","outs":[13,14]}],"channels":[{"from":[0,0],"label":"root","to":[10,0]},
>+ {"from":[1,0],"label":"product 0 1 1 coordinate","to":[3,0]},
>+ {"from":[1,1],"label":"product 0 1 1 rank 0","to":[3,1]},
>+ {"from":[2,0],"label":"product 0 1 2 coordinate","to":[3,2]},
>+ {"from":[2,1],"label":"product 0 1 2 rank 1","to":[3,3]},
>+ {"from":[3,0],"label":"product 0 1 3 coordinate","to":[7,0]},
>+ {"from":[3,1],"label":"product 0 1 3 rank 0","to":[4,0]},
>+ {"from":[3,2],"label":"product 0 1 3 rank 1","to":[5,0]},
>+ {"from":[4,0],"label":"product 0 1 3 factor 0","to":[6,0]},
>+ {"from":[5,0],"label":"product 0 1 3 factor 1","to":[6,1]},
>+ {"from":[6,0],"label":"product 0 1 3 partial 2","to":[7,1]},
>+ {"from":[7,0],"label":"reduced 0 0 1 1 coordinate","to":[8,0]},
>+ {"from":[7,1],"label":"reduced 0 0 1 1 value","to":[9,0]},
>+ {"from":[10,0],"label":"root","to":[1,0]},
>+ {"from":[10,1],"label":"root","to":[2,0]}]}
# a matrix times a vector: a repeat, a sum over j, and a drain of j's coordinates
--- p.sam
| tensor B 3x3 dc 1,2 B.tns
| tensor c 3 c 1 c.tns
| result x 3 c 1
| compute x(i) = B(i,j) * c(j)
| loops i j
$ lower p.sam
> {"blocks":[{"arg":[],"ins":[],"kind":"root","name":"","outs":[0]},
>+ {"arg":[1],"ins":[17],"kind":"scan","name":"B","outs":[1,2]},
>+ {"arg":[],"ins":[19,18],"kind":"repeat","name":"","outs":[3]},
>+ {"arg":[2],"ins":[2],"kind":"scan","name":"B","outs":[4,5]},
>+ {"arg":[1],"ins":[3],"kind":"scan","name":"c","outs":[6,7]},
>+ {"arg":[1,1],"ins":[4,5,6,7],"kind":"intersect","name":"","outs":[8,9,10]},
>+ {"arg":[],"ins":[9],"kind":"array","name":"B","outs":[11]},
>+ {"arg":[],"ins":[10],"kind":"array","name":"c","outs":[12]},
>+ {"arg":[],"ins":[11,12],"kind":"mul","name":"","outs":[13]},
>+ {"arg":[],"ins":[20,13],"kind":"sumscalar","name":"","outs":[14]},
>+ {"arg":[],"ins":[21,14],"kind":"dropvalue","name":"","outs":[15,16]},
>+ {"arg":[1],"ins":[15],"kind":"writelevel","name":"x","outs":[]},
>+ {"arg":[],"ins":[16],"kind":"writevalue","name":"x","outs":[]},
>+ {"arg":[2],"ins":[0],"kind":"cast","name":"","outs":[17,18]},
>+ {"arg":[3],"ins":[1],"kind":"cast","name":"","outs":[19,20,21]},
>+ {"arg":[],"ins":[8],"kind":"drain","name":"","outs":[]}],"channels":[{"from":[0,0],"label":"root","to":[13,0]},
>+ {"from":[1,0],"label":"product 0 1 1 coordinate","to":[14,0]},
>+ {"from":[1,1],"label":"product 0 1 1 rank 0","to":[3,0]},
>+ {"from":[2,0],"label":"product 0 1 1 rank 1","to":[4,0]},
>+ {"from":[3,0],"label":"product 0 2 1 coordinate","to":[5,0]},
>+ {"from":[3,1],"label":"product 0 2 1 rank 0","to":[5,1]},
>+ {"from":[4,0],"label":"product 0 2 2 coordinate","to":[5,2]},
>+ {"from":[4,1],"label":"product 0 2 2 rank 1","to":[5,3]},
>+ {"from":[5,0],"label":"product 0 2 3 coordinate","to":[15,0]},
>+ {"from":[5,1],"label":"product 0 2 3 rank 0","to":[6,0]},
>+ {"from":[5,2],"label":"product 0 2 3 rank 1","to":[7,0]},
>+ {"from":[6,0],"label":"product 0 2 3 factor 0","to":[8,0]},
>+ {"from":[7,0],"label":"product 0 2 3 factor 1","to":[8,1]},
>+ {"from":[8,0],"label":"product 0 2 3 partial 2","to":[9,1]},
>+ {"from":[9,0],"label":"reduced 0 1 9 1 value","to":[10,1]},
>+ {"from":[10,0],"label":"reduced 0 1 1 1 coordinate","to":[11,0]},
>+ {"from":[10,1],"label":"reduced 0 1 1 1 value","to":[12,0]},
>+ {"from":[13,0],"label":"root","to":[1,0]},
>+ {"from":[13,1],"label":"root","to":[2,1]},
>+ {"from":[14,0],"label":"product 0 1 1 coordinate","to":[2,0]},
>+ {"from":[14,1],"label":"product 0 1 1 coordinate","to":[9,0]},
>+ {"from":[14,2],"label":"product 0 1 1 coordinate","to":[10,0]}]}
# a sum of two matrices: 24 blocks and 38 channels, and channel 7 leads from block 4 to block 14
--- p.sam
| tensor B 3x2 dc 1,2 B.tns
| tensor C 3x2 dc 1,2 C.tns
| result X 3x2 cc 1,2
| compute X(i,j) = B(i,j) + C(i,j)
| loops i j
$ lower p.sam
> {"blocks":[{"arg":[],"ins":[],"kind":"root","name":"","outs":[0]},
>+ {"arg":[1],"ins":[32],"kind":"scan","name":"B","outs":[1,2]},
>+ {"arg":[2],"ins":[2],"kind":"scan","name":"B","outs":[3,4]},
>+ {"arg":[],"ins":[4],"kind":"array","name":"B","outs":[5]},
>+ {"arg":[],"ins":[3,5],"kind":"dropvalue","name":"","outs":[6,7]},
>+ {"arg":[],"ins":[1,6],"kind":"dropfiber","name":"","outs":[8,9]},
>+ {"arg":[1],"ins":[33],"kind":"scan","name":"C","outs":[10,11]},
>+ {"arg":[2],"ins":[11],"kind":"scan","name":"C","outs":[12,13]},
>+ {"arg":[],"ins":[13],"kind":"array","name":"C","outs":[14]},
>+ {"arg":[],"ins":[12,14],"kind":"dropvalue","name":"","outs":[15,16]},
>+ {"arg":[],"ins":[10,15],"kind":"dropfiber","name":"","outs":[17,18]},
>+ {"arg":[1],"ins":[34],"kind":"const","name":"","outs":[19]},
>+ {"arg":[1],"ins":[36],"kind":"const","name":"","outs":[20]},
>+ {"arg":[1,1],"ins":[35,19,37,20],"kind":"union","name":"","outs":[21,22,23]},
>+ {"arg":[1],"ins":[22,9,7],"kind":"fill","name":"","outs":[24,25]},
>+ {"arg":[1],"ins":[23,18,16],"kind":"fill","name":"","outs":[26,27]},
>+ {"arg":[1,1],"ins":[24,25,26,27],"kind":"union","name":"","outs":[28,29,30]},
>+ {"arg":[],"ins":[29,30],"kind":"add","name":"","outs":[31]},
>+ {"arg":[1],"ins":[21],"kind":"writelevel","name":"X","outs":[]},
>+ {"arg":[2],"ins":[28],"kind":"writelevel","name":"X","outs":[]},
>+ {"arg":[],"ins":[31],"kind":"writevalue","name":"X","outs":[]},
>+ {"arg":[2],"ins":[0],"kind":"cast","name":"","outs":[32,33]},
>+ {"arg":[2],"ins":[8],"kind":"cast","name":"","outs":[34,35]},
>+ {"arg":[2],"ins":[17],"kind":"cast","name":"","outs":[36,37]}],"channels":[{"from":[0,0],"label":"root","to":[21,0]},
>+ {"from":[1,0],"label":"product 0 1 1 coordinate","to":[5,0]},
>+ {"from":[1,1],"label":"product 0 1 1 rank 0","to":[2,0]},
>+ {"from":[2,0],"label":"product 0 2 1 coordinate","to":[4,0]},
>+ {"from":[2,1],"label":"product 0 2 1 rank 0","to":[3,0]},
>+ {"from":[3,0],"label":"product 0 2 1 factor 0","to":[4,1]},
>+ {"from":[4,0],"label":"reduced 0 0 2 2 coordinate","to":[5,1]},
>+ {"from":[4,1],"label":"reduced 0 0 2 2 value","to":[14,2]},
>+ {"from":[5,0],"label":"reduced 0 0 1 1 coordinate","to":[22,0]},
>+ {"from":[5,1],"label":"reduced 0 0 1 2 coordinate","to":[14,1]},
>+ {"from":[6,0],"label":"product 1 1 1 coordinate","to":[10,0]},
>+ {"from":[6,1],"label":"product 1 1 1 rank 0","to":[7,0]},
>+ {"from":[7,0],"label":"product 1 2 1 coordinate","to":[9,0]},
>+ {"from":[7,1],"label":"product 1 2 1 rank 0","to":[8,0]},
>+ {"from":[8,0],"label":"product 1 2 1 factor 0","to":[9,1]},
>+ {"from":[9,0],"label":"reduced 1 0 2 2 coordinate","to":[10,1]},
>+ {"from":[9,1],"label":"reduced 1 0 2 2 value","to":[15,2]},
>+ {"from":[10,0],"label":"reduced 1 0 1 1 coordinate","to":[23,0]},
>+ {"from":[10,1],"label":"reduced 1 0 1 2 coordinate","to":[15,1]},
>+ {"from":[11,0],"label":"reduced 0 0 1 1 literal 1","to":[13,1]},
>+ {"from":[12,0],"label":"reduced 1 0 1 1 literal 1","to":[13,3]},
>+ {"from":[13,0],"label":"joined 1 1 coordinate","to":[18,0]},
>+ {"from":[13,1],"label":"joined 1 1 present left","to":[14,0]},
>+ {"from":[13,2],"label":"joined 1 1 present right","to":[15,0]},
>+ {"from":[14,0],"label":"beside 1 left 2 coordinate","to":[16,0]},
>+ {"from":[14,1],"label":"beside 1 left 2 value","to":[16,1]},
>+ {"from":[15,0],"label":"beside 1 right 2 coordinate","to":[16,2]},
>+ {"from":[15,1],"label":"beside 1 right 2 value","to":[16,3]},
>+ {"from":[16,0],"label":"joined 1 2 coordinate","to":[19,0]},
>+ {"from":[16,1],"label":"joined 1 2 value left","to":[17,0]},
>+ {"from":[16,2],"label":"joined 1 2 value right","to":[17,1]},
>+ {"from":[17,0],"label":"joined 1 2 value","to":[20,0]},
>+ {"from":[21,0],"label":"root","to":[1,0]},
>+ {"from":[21,1],"label":"root","to":[6,0]},
>+ {"from":[22,0],"label":"reduced 0 0 1 1 coordinate","to":[11,0]},
>+ {"from":[22,1],"label":"reduced 0 0 1 1 coordinate","to":[13,0]},
>+ {"from":[23,0],"label":"reduced 1 0 1 1 coordinate","to":[12,0]},
>+ {"from":[23,1],"label":"reduced 1 0 1 1 coordinate","to":[13,2]}]}
"#;

#[test]
fn graphs_are_written(rt: HostRuntime) -> Result<(), Fail> {
    let told = replayed(&rt, rt.alloc(), GRAPHS)?;
    assert!(rt; told.as_str() == GRAPHS, "{told}");
    Ok(())
}
