//! Programs and their answers.

use crate::kernels::KERNELS;
use std::test::Fail;
use top_calls::{Call, Program, SOUND, expect_all, expect_answers};

/// Programs: the values of their parameters, their bundles, and their answers.
static PROGRAMS: [Program; 25] = [
    (
        &["N=4"],
        b"param N; out y[N]; var s; for (i = 0; i < N; i++) { s = s + i; y[i] = s; }",
        b"y,0,1,3,6\n",
    ),
    (
        &["N=3"],
        b"param N; out y[N]; var t; for (i = 0; i < N; i++) { y[i] = t; t = i; t = t + 10; }",
        b"y,0,10,11\n",
    ),
    (
        &[],
        b"out y; var a; for (int i = max(0, 2); i <= min(5, 3); ++i) { if (i >= 3) { a = a + i; } else { a = 10; } } y = -a * min(2, 7);",
        b"y,-26\n",
    ),
    (
        &["M=5"],
        b"out y; y = 9223372036854775807 + 1;\n%%\n\r\n\n%%\nanything",
        b"y,-9223372036854775808\n",
    ),
    (&["N=-2"], b"param N; out y[N], z; z = N;", b"y\nz,-2\n"),
    (
        &["N=1"],
        b"param N; // a comment\r\n/* and another */ out y[2][N];",
        b"y,0,0\n",
    ),
    (
        &["N=-007", "M=000000000000000012", "inn=2147483647", "_m1=-0"],
        b"param M, N, inn, _m1; out y[4]; y[0] = N; y[1] = M; y[2] = inn; y[3] = _m1;",
        b"y,-7,12,2147483647,0\n",
    ),
    (&[], b"", b""),
    (
        &["N=3"],
        b"param N; in x[N]; out y[N]; for (i = 0; i < N; i++) y[i] = x[i] + 1;\n%%\nx,5,6,7\n",
        b"y,6,7,8\n",
    ),
    (
        &["N=0"],
        b"param N; in x[N]; out y[N]; for (i = 0; i < N; i++) y[i] = x[i] + 1;\n%%\nx",
        b"y\n",
    ),
    (
        &["N=-2"],
        b"param N; in x[N]; out y[N]; for (i = 0; i < N; i++) y[i] = x[i] + 1;\n%%\nx\n%%\n",
        b"y\n",
    ),
    (
        &["N=3"],
        b"param N; in x[N]; out s[N]; for (i = 0; i < N; i++) s[i] = s[i-1] + x[i];\n%%\nx,1,2,3\n",
        b"s,1,3,6\n",
    ),
    (
        &["N=4"],
        b"param N; in x[N], c; out y[N]; for (i = 0; i < N; i++) y[i] = x[i] * c;\n%%\nx,1,2,3,4\nc,10\n",
        b"y,10,20,30,40\n",
    ),
    (
        &[],
        b"in a[2][2]; out b[2][2]; for (j = 0; j < 2; j++) for (i = 0; i < 2; i++) b[j][i] = a[i][j];\n%%\na,1,2,3,4\n",
        b"b,1,3,2,4\n",
    ),
    (
        &[],
        b"in x[3]; out b[2][3]; for (i = 0; i < 2; i++) for (j = 0; j < 3; j++) b[i][j] = x[2-j];\n%%\nx,1,2,3\n",
        b"b,3,2,1,3,2,1\n",
    ),
    (
        &["N=3"],
        b"param N; in x[N]; out y[N]; var a[N]; for (i = 0; i < N; i++) { if (i < 2) { a[i] = x[i]; } else { a[i] = 0 - x[i]; } } for (i = 0; i < N; i++) y[i] = a[i];\n%%\nx,1,2,3\n",
        b"y,1,2,-3\n",
    ),
    (
        &["N=2"],
        b"param N; in A[N][N], B[N][N]; out C[N][N]; for (i = 0; i < N; i++) for (j = 0; j < N; j++) { C[i][j] = 0; for (k = 0; k < N; k++) C[i][j] = C[i][j] + A[i][k] * B[k][j]; }\n%%\nB,5,6,7,8\nA,1,2,3,4\n",
        b"C,19,22,43,50\n",
    ),
    (
        &["N=4"],
        b"param N; in a[N]; out c[N]; var b[N]; for (i = 0; i < N; i++) b[i] = a[i]; for (i = 0; i < N; i++) c[i] = a[i] + b[N-1];\n%%\na,1,2,3,4\n",
        b"c,5,6,7,8\n",
    ),
    (
        &["N=1"],
        b"param N; in x[N]; out y[N]; for (i = 0; i < N; i++) y[i] = x[i] + 1;\n%%\nx,9223372036854775807\n",
        b"y,-9223372036854775808\n",
    ),
    (
        &["N=2"],
        b"param N; in a[N]; out y[N]; for (i = 0; i < N; i++) y[i] = a[N*i];\n%%\na,5,6\n",
        b"y,5,0\n",
    ),
    (
        &["N=3"],
        b"param N; in x[N]; out y[N]; var a[N]; for (i = 0; i < N; i++) a[2*i] = x[i]; for (i = 0; i < N; i++) y[i] = a[i];\n%%\nx,1,2,3\n",
        b"y,1,0,2\n",
    ),
    (
        &[],
        b"out y[2]; var a[2]; for (i = 1000000000; i <= 1000000001; i++) { a[2 * (i - 1000000000) - 2] = i; y[i - 1000000000] = a[2 * (i - 1000000000) - 2]; }",
        b"y,1000000000,1000000001\n",
    ),
    (
        &[],
        b"out y[1]; for (i = 2147483645; i <= 2147483647; i++) for (j = 2147483647 * i; j <= 2147483647 * i; j++) y[j - 2147483647 * i] = y[j - 2147483647 * i] + j;",
        b"y,-4611686037754740730\n",
    ),
    (
        &[],
        b"out y; var a[2147483647][2147483647]; a[2147483646][2147483646] = 7; a[0][4194304] = 3; y = a[2147483646][2147483646] * 10 + a[0][4194304];",
        b"y,73\n",
    ),
    (
        &[],
        b"inout v[3]; in w; for (i = 0; i <= 2; i++) v[i] = v[i] * w - v[2];\r\n%%\r\n w , -2 \r\n\r\n\"v\",\" 1\t\",2,-0\r\n%%\r\n",
        b"v,-2,-4,0\n",
    ),
];

/// Calls with words in another order, and without parameters.
static ORDERED: [Call; 3] = [
    (
        &["--policy=down", "run", "--", "N=3"],
        b"param N; in x[N]; out y[N]; for (i = 0; i < N; i++) y[i] = x[i] + 1;\n%%\nx,5,6,7\n",
        0,
        b"y,6,7,8\n",
    ),
    (
        &["run", "N=4", "--policy", "down"],
        b"param N; in a[N]; out c[N]; var b[N]; for (i = 0; i < N; i++) b[i] = a[i]; for (i = 0; i < N; i++) c[i] = a[i] + b[N-1];\n%%\na,1,2,3,4\n",
        0,
        b"c,5,6,7,8\n",
    ),
    (&["--", "run"], b" \t\r\n", 0, b""),
];

#[test]
fn programs_are_run(rt: HostRuntime) -> Result<(), Fail> {
    expect_answers(&rt, &PROGRAMS)?;
    expect_all(&rt, SOUND, &ORDERED)
}

#[test]
fn kernels_are_run(rt: HostRuntime) -> Result<(), Fail> {
    expect_answers(&rt, &KERNELS)
}
