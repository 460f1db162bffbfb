//! Tests of the readers: words, statements, expressions, program files, tensor files and stored tensors; and of results that are closed.
#![tactic(auto)]

#[cfg(test)]
mod chains;
#[cfg(test)]
mod closings;
#[cfg(test)]
mod expressions;
#[cfg(test)]
mod programs;
#[cfg(test)]
mod statements;
#[cfg(test)]
mod storages;
#[cfg(test)]
mod tables;
#[cfg(test)]
mod tensor_files;
#[cfg(test)]
mod words;
