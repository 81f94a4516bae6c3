//! Texts that several crates of tests name.

/// What is said of words that are refused.
pub const USAGE: &[u8] = b"usage: compaan COMMAND [--policy seq|down] [NAME=VALUE]...\n";

/// A source whose only loop adds 1 to each cell.
pub const INCREMENT: &[u8] =
    b"param N; in x[N]; out y[N]; for (i = 0; i < N; i++) y[i] = x[i] + 1;";

/// Its network with N=3.
pub const INCREMENT_NETWORK: &[u8] = b"net 1
process 0 source x fires 3 slots 0
process 1 assign y fires 3 slots 1
process 2 sink y fires 3 slots 1
channel 0 from 0 to 1 read 0 tokens 3 capacity 3 hold 1 class inorder
channel 1 from 1 to 2 read 0 tokens 3 capacity 3 hold 1 class inorder
events 21
end
";
