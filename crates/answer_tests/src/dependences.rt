//! Sources by `deps`.

use std::test::Fail;
use top_calls::{Call, SOUND, expect_all};

const RUNNING_SUM: &[u8] =
    b"param N; in x[N]; out s[N]; for (i = 0; i < N; i++) s[i] = s[i - 1] + x[i];";

const EVEN_CELLS: &[u8] =
    b"param N; in x[N]; out y[N]; var a[N]; for (i = 0; i < N; i++) a[2 * i] = x[i]; for (i = 0; i < N; i++) y[i] = a[i];";

const DIAGONALS: &[u8] =
    b"param N; out y[N]; var a[9]; for (i = 0; i < N; i++) for (j = 0; j < N; j++) a[i + j] = i; for (i = 0; i < N; i++) y[i] = a[i];";

const SUMS: &[u8] =
    b"param N; in x[N]; out y[N]; var a[N]; for (i = 0; i < N; i++) for (j = 0; j < N; j++) a[i + j] = x[i]; for (i = 0; i < N; i++) y[i] = a[i];";

/// The second loop's variable passes the limit of loop values, and nobody reads what is written there.
const FAR: &[u8] =
    b"out y; var b; y = 1; for (i = 2147483647; i <= 2147483647; i++) for (j = 2147483647 * i; j <= 2147483647 * i; j++) for (k = 2 * j; k <= 2 * j; k++) b = k;";

/// The same with a read of an array that has no tree.
const FAR_READ: &[u8] =
    b"out y; var b[1]; y = b[0]; for (i = 2147483647; i <= 2147483647; i++) for (j = 2147483647 * i; j <= 2147483647 * i; j++) for (k = 2 * j; k <= 2 * j; k++) b[2 * k] = k;";

static TOLD: [Call; 13] = [
    (
        &["deps", "N=1000000000"],
        RUNNING_SUM,
        0,
        b"deps 1\n\
        read 1 0\ntree\nt -1 1\nw 1 1\nm -1 1\nz\n\
        read 1 1\ntree\nw 0 1\nm 0 1\n\
        read 2 0\ntree\nw 1 1\nm 0 1\n\
        end\n",
    ),
    // no loop turns, so nobody writes
    (
        &["deps", "N=-2", "--policy", "down"],
        DIAGONALS,
        0,
        b"deps 1\nread 1 0\npoints 0\nread 2 0\ntree\nz\nend\n",
    ),
    (
        &["deps", "N=2"],
        DIAGONALS,
        0,
        b"deps 1\n\
        read 1 0\npoints 2\n(0) 0(0,0)\n(1) 0(1,0)\n\
        read 2 0\ntree\nw 1 1\nm 0 1\n\
        end\n",
    ),
    (
        &["deps"],
        b"out y; var a; y = a;",
        0,
        b"deps 1\nread 0 0\ntree\nz\nread 1 0\ntree\nw 0 0\nend\n",
    ),
    (&["deps"], FAR, 0, b"deps 1\nread 2 0\ntree\nw 0 0\nend\n"),
    (
        &["deps", "N=2147483647"],
        b"param N; var a; for (i = 0; i < N; i++) a = i;",
        0,
        b"deps 1\nend\n",
    ),
    (&["deps"], b"", 0, b"deps 1\nend\n"),
    // the data part is passed over
    (&["deps"], b"var a; a = 1;\n%%\nz,1\n", 0, b"deps 1\nend\n"),
    // a write that comes first by the text and last by the loop
    (
        &["deps", "N=5"],
        b"param N; out y[N]; var t; for (i = 0; i < N; i++) { y[i] = t; t = i; }",
        0,
        b"deps 1\n\
        read 0 0\ntree\nt -1 1\nw 1 1\nm -1 1\nz\n\
        read 2 0\ntree\nw 0 1\nm 0 1\n\
        end\n",
    ),
    // points of a read of a scalar, of which the first has no source
    (
        &["deps", "N=3"],
        b"param N; out y[1]; for (i = 0; i < N; i++) y[2 * i - 2 * i] = y[3 * i - 3 * i] + i;",
        0,
        b"deps 1\n\
        read 0 0\ntree\nt -1 1\nw 0 1\nm -1 1\nz\n\
        read 1 0\ntree\nw 0 1\nm 2 0\n\
        end\n",
    ),
    // where 2 divides the loop value of the reader, its quotient is that of the writer, and else nobody wrote the cell
    (
        &["deps", "N=3"],
        EVEN_CELLS,
        0,
        b"deps 1\n\
        read 1 0\ntree\nw 0 1\nm 0 1\n\
        read 2 0\ntree\nd 2 0 1\nw 1 1\nm 0 0 1\nz\n\
        read 3 0\ntree\nw 2 1\nm 0 1\n\
        end\n",
    ),
    (
        &["deps", "N=1000000000"],
        EVEN_CELLS,
        0,
        b"deps 1\n\
        read 1 0\ntree\nw 0 1\nm 0 1\n\
        read 2 0\ntree\nd 2 0 1\nw 1 1\nm 0 0 1\nz\n\
        read 3 0\ntree\nw 2 1\nm 0 1\n\
        end\n",
    ),
    // the same with a step
    (
        &["deps", "N=5"],
        b"param N; in x[N]; out y[N]; for (i = 0; i < N; i += 2) y[i] = x[i];",
        0,
        b"deps 1\n\
        read 1 0\ntree\nw 0 1\nm 0 2\n\
        read 2 0\ntree\nd 2 0 1\nw 1 1\nm 0 0 1\nz\n\
        end\n",
    ),
];

static REFUSED: [Call; 6] = [
    (&["deps", "N=1000000000"], SUMS, 8, b"limit: Size 8388609\n"),
    (&["deps"], FAR_READ, 8, b"limit: LoopValue 2\n"),
    (&["seq"], FAR, 8, b"limit: LoopValue 2\n"),
    (&["deps"], RUNNING_SUM, 7, b"class: Unbound 6\n"),
    (&["deps", "N=3"], b"y", 6, b"text: Syntax 1\n"),
    (
        &["deps", "N=2147483648"],
        RUNNING_SUM,
        8,
        b"limit: Large 6\n",
    ),
];

#[test]
fn sources_are_told(rt: HostRuntime) -> Result<(), Fail> {
    expect_all(&rt, SOUND, &TOLD)?;
    expect_all(&rt, SOUND, &REFUSED)
}
