//! Networks by their texts.

use std::test::Fail;
use top_calls::{Call, INCREMENT, INCREMENT_NETWORK, Program, SOUND, expect_all, expect_of};

/// Sources with the values of their parameters and the texts of their networks.
static NETWORKS: [Program; 12] = [
    (&["N=3"], INCREMENT, INCREMENT_NETWORK),
    (
        &["N=0"],
        INCREMENT,
        b"net 1
process 0 source x fires 0 slots 0
process 1 assign y fires 0 slots 0
process 2 sink y fires 0 slots 0
events 0
end
",
    ),
    (
        &["N=-2"],
        b"param N; in x[N]; out y[N]; for (i = 0; i < N; i++) y[i] = x[i] + 1;\n%%\nno,data\n",
        b"net 1
process 0 source x fires 0 slots 0
process 1 assign y fires 0 slots 0
process 2 sink y fires 0 slots 0
events 0
end
",
    ),
    (
        &["N=3"],
        b"param N; in x[N]; out s[N]; for (i = 0; i < N; i++) s[i] = s[i-1] + x[i];",
        b"net 1
process 0 source x fires 3 slots 0
process 1 assign s fires 3 slots 2
process 2 sink s fires 3 slots 1
channel 0 from 1 to 1 read 0 tokens 2 capacity 1 hold 1 class inorder
channel 1 from 0 to 1 read 1 tokens 3 capacity 3 hold 1 class inorder
channel 2 from 1 to 2 read 0 tokens 3 capacity 3 hold 1 class inorder
events 25
end
",
    ),
    (
        &["N=4"],
        b"param N; in x[N], c; out y[N]; for (i = 0; i < N; i++) y[i] = x[i] * c;",
        b"net 1
process 0 source x fires 4 slots 0
process 1 source c fires 1 slots 0
process 2 assign y fires 4 slots 2
process 3 sink y fires 4 slots 1
channel 0 from 0 to 2 read 0 tokens 4 capacity 4 hold 1 class inorder
channel 1 from 1 to 2 read 1 tokens 1 capacity 1 hold 1 class inorder+
channel 2 from 2 to 3 read 0 tokens 4 capacity 4 hold 1 class inorder
events 31
end
",
    ),
    (
        &[],
        b"in a[2][2]; out b[2][2]; for (j = 0; j < 2; j++) for (i = 0; i < 2; i++) b[j][i] = a[i][j];",
        b"net 1
process 0 source a fires 4 slots 0
process 1 assign b fires 4 slots 2
process 2 sink b fires 4 slots 1
channel 0 from 0 to 1 read 0 tokens 4 capacity 4 hold 2 class reorder
channel 1 from 1 to 2 read 0 tokens 4 capacity 4 hold 1 class inorder
events 28
end
",
    ),
    (
        &[],
        b"in x[3]; out b[2][3]; for (i = 0; i < 2; i++) for (j = 0; j < 3; j++) b[i][j] = x[2-j];",
        b"net 1
process 0 source x fires 3 slots 0
process 1 assign b fires 6 slots 3
process 2 sink b fires 6 slots 1
channel 0 from 0 to 1 read 0 tokens 3 capacity 3 hold 3 class reorder+
channel 1 from 1 to 2 read 0 tokens 6 capacity 6 hold 1 class inorder
events 33
end
",
    ),
    (
        &["N=3"],
        b"param N; out y[N]; var t; for (i = 0; i < N; i++) { y[i] = t; t = i; t = t + 10; }",
        b"net 1
process 0 assign y fires 3 slots 1
process 1 assign t fires 3 slots 0
process 2 assign t fires 3 slots 1
process 3 sink y fires 3 slots 1
channel 0 from 2 to 0 read 0 tokens 2 capacity 1 hold 1 class inorder
channel 1 from 1 to 2 read 0 tokens 3 capacity 1 hold 1 class inorder
channel 2 from 0 to 3 read 0 tokens 3 capacity 3 hold 1 class inorder
events 28
end
",
    ),
    (
        &["N=3"],
        b"param N; in x[N]; out y[N]; var a[N]; for (i = 0; i < N; i++) { if (i < 2) { a[i] = x[i]; } else { a[i] = 0 - x[i]; } } for (i = 0; i < N; i++) y[i] = a[i];",
        b"net 1
process 0 source x fires 3 slots 0
process 1 assign a fires 2 slots 1
process 2 assign a fires 1 slots 1
process 3 assign y fires 3 slots 2
process 4 sink y fires 3 slots 1
channel 0 from 0 to 1 read 0 tokens 2 capacity 2 hold 1 class inorder
channel 1 from 0 to 2 read 0 tokens 1 capacity 1 hold 1 class inorder
channel 2 from 1 to 3 read 0 tokens 2 capacity 2 hold 1 class inorder
channel 3 from 2 to 3 read 0 tokens 1 capacity 1 hold 1 class inorder
channel 4 from 3 to 4 read 0 tokens 3 capacity 3 hold 1 class inorder
events 30
end
",
    ),
    // loops with steps
    (
        &["N=5"],
        b"param N; in x[N]; out y[N]; for (i = 0; i < N; i += 2) y[i] = x[i];",
        b"net 1
process 0 source x fires 5 slots 0
process 1 assign y fires 3 slots 1
process 2 sink y fires 5 slots 1
channel 0 from 0 to 1 read 0 tokens 3 capacity 3 hold 1 class inorder
channel 1 from 1 to 2 read 0 tokens 3 capacity 3 hold 1 class inorder
events 25
end
",
    ),
    (
        &[],
        b"in x[4]; out y[4]; for (i = 0; i < 2; i++) for (j = i; j < 4; j += 2) y[j] = x[j];",
        b"net 1
process 0 source x fires 4 slots 0
process 1 assign y fires 4 slots 2
process 2 sink y fires 4 slots 2
channel 0 from 0 to 1 read 0 tokens 4 capacity 4 hold 2 class reorder
channel 1 from 1 to 2 read 0 tokens 4 capacity 4 hold 2 class reorder
events 28
end
",
    ),
    (
        &["N=5"],
        b"param N; inout s[N]; for (i = 1; i < N; i += 2) s[i] = 2 * s[i] - s[i - 1] - s[i + 1]; for (i = 0; i < N; i += 2) s[i] = 8 * s[i] + s[i - 1] + s[i + 1];",
        b"net 1
process 0 source s fires 5 slots 0
process 1 assign s fires 2 slots 3
process 2 assign s fires 3 slots 3
process 3 sink s fires 5 slots 2
channel 0 from 0 to 1 read 0 tokens 2 capacity 2 hold 1 class inorder
channel 1 from 0 to 1 read 1 tokens 2 capacity 2 hold 1 class inorder
channel 2 from 0 to 1 read 2 tokens 2 capacity 2 hold 1 class inorder
channel 3 from 0 to 2 read 0 tokens 3 capacity 3 hold 1 class inorder
channel 4 from 1 to 2 read 1 tokens 2 capacity 2 hold 1 class inorder
channel 5 from 1 to 2 read 2 tokens 2 capacity 2 hold 1 class inorder
channel 6 from 1 to 3 read 0 tokens 2 capacity 2 hold 1 class inorder
channel 7 from 2 to 3 read 0 tokens 3 capacity 3 hold 1 class inorder
events 51
end
",
    ),
];

/// Words, bundles, and the texts of networks under the policy that takes the highest process.
static DOWNWARD: [Call; 2] = [
    (
        &["net", "--policy", "down", "N=3"],
        INCREMENT,
        0,
        b"net 1\nprocess 0 source x fires 3 slots 0\nprocess 1 assign y fires 3 slots 1\nprocess 2 sink y fires 3 slots 1\nchannel 0 from 0 to 1 read 0 tokens 3 capacity 1 hold 1 class inorder\nchannel 1 from 1 to 2 read 0 tokens 3 capacity 1 hold 1 class inorder\nevents 21\nend\n",
    ),
    (
        &["net", "N=4", "--policy=down"],
        b"param N; in a[N]; out c[N]; var b[N]; for (i = 0; i < N; i++) b[i] = a[i]; for (i = 0; i < N; i++) c[i] = a[i] + b[N-1];",
        0,
        b"net 1\nprocess 0 source a fires 4 slots 0\nprocess 1 assign b fires 4 slots 1\nprocess 2 assign c fires 4 slots 2\nprocess 3 sink c fires 4 slots 1\nchannel 0 from 0 to 1 read 0 tokens 4 capacity 1 hold 1 class inorder\nchannel 1 from 0 to 2 read 0 tokens 4 capacity 2 hold 1 class inorder\nchannel 2 from 1 to 2 read 1 tokens 1 capacity 1 hold 1 class inorder+\nchannel 3 from 2 to 3 read 0 tokens 4 capacity 1 hold 1 class inorder\nevents 42\nend\n",
    ),
];

#[test]
fn networks_are_printed(rt: HostRuntime) -> Result<(), Fail> {
    for (params, bundle, text) in &NETWORKS {
        expect_of(&rt, "net", params, bundle, 0, text)?;
    }
    expect_all(&rt, SOUND, &DOWNWARD)
}
