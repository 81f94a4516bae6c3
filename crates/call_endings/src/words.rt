use io_edge::{StdIn, StdOut};
use std::rt::{Env, Stderr, Stdin, Stdout};
use std::{env, io};

/// The source and the two sinks of a program.
#[derive(Drop)]
pub struct Streams<S, K, E> {
    pub input: S,
    pub output: K,
    pub complaint: E,
}

/// Those of the process. Their types keep them apart, so that none stands in the place of another.
pub type HostStreams = Streams<StdIn<Stdin>, StdOut<Stdout>, StdOut<Stderr>>;

/// The streams of the process, by the handles that the runtime gives.
pub fn host_streams(input: Stdin, output: Stdout, complaint: Stderr) -> HostStreams {
    Streams {
        input: StdIn::new(input),
        output: StdOut::new(output),
        complaint: StdOut::new(complaint),
    }
}

/// The words behind the program's name, which is the first of those that the runtime gives.
pub fn program_words(rt: &(impl Env + AllocGlobal)) -> io::Result<Vec<String>> {
    let mut words = Vec::new(rt.alloc());
    for word in env::args(rt)?.skip(1) {
        words.push(word)?;
    }
    Ok(words)
}
