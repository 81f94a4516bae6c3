//! Programs whose reads are all in the stride class.

pub(crate) const INCREMENT: &[u8] =
    b"param N; in x[N]; out y[N]; for (i = 0; i < N; i++) y[i] = x[i] + 1;";

pub(crate) const RUNNING_SUM: &[u8] =
    b"param N; in x[N]; out s[N]; for (i = 0; i < N; i++) s[i] = s[i-1] + x[i];";

pub(crate) const DELAYED: &[u8] =
    b"param N; out y[N]; var t; for (i = 0; i < N; i++) { y[i] = t; t = i; t = t + 10; }";

pub(crate) const TWO_CASES: &[u8] = b"param N; in x[N]; out y[N]; var a[N]; \
    for (i = 0; i < N; i++) { if (i < 2) { a[i] = x[i]; } else { a[i] = 0 - x[i]; } } \
    for (i = 0; i < N; i++) y[i] = a[i];";

pub(crate) const LAST_OF_ROW: &[u8] = b"param N; in a[N]; out c[N]; var b[N]; \
    for (i = 0; i < N; i++) b[i] = a[i]; for (i = 0; i < N; i++) c[i] = a[i] + b[N-1];";

pub(crate) const PRODUCT: &[u8] = b"param N; in A[N][N], B[N][N]; out C[N][N]; \
    for (i = 0; i < N; i++) for (j = 0; j < N; j++) { C[i][j] = 0; \
    for (k = 0; k < N; k++) C[i][j] = C[i][j] + A[i][k] * B[k][j]; }";

pub(crate) const STENCIL: &[u8] = b"param N; inout a[N][N]; \
    for (t = 0; t < N; t++) for (i = 1; i < N - 1; i++) for (j = 1; j < N - 1; j++) \
    a[i][j] = a[i-1][j-1] + a[i-1][j] + a[i][j] + a[i][j+1] + a[i+1][j-1] + a[i+1][j+1];";

pub(crate) const TRIANGLE: &[u8] = b"param N; inout a[N][N]; for (k = 0; k < N; k++) { \
    for (i = k + 1; i < N; i++) a[i][k] = a[i][k] * a[k][k]; \
    for (i = k + 1; i < N; i++) for (j = k + 1; j < N; j++) \
    a[i][j] = a[i][j] - a[i][k] * a[k][j]; }";

// Writers with guards that each read the others' cells, also at free forms: the trees take tests
// between points, points that come one by the text before the other, and leaves that nothing meets.
pub(crate) const MANY_WRITERS: &[u8] =
    b"param N; out a[N]; for (i = 0; i < N; i++) for (j = i; j < N; j++) { \
    if (i >= 0) { a[i] = a[i] + a[j]; } if (i >= 1) { a[i+5] = a[i-1] + a[j+1]; } \
    if (i >= 2) { a[i+3] = a[i-2] + a[j+2]; } if (i >= 3) { a[i+1] = a[i-3] + a[j+3]; } \
    a[j-1] = a[2*i-j] + a[3*j]; }";

pub(crate) const STRIDED: &[u8] = b"param N; in x[N]; out y[N]; var a[N]; \
    for (i = 0; i < N; i++) a[2*i] = x[i]; for (i = 0; i < N; i++) y[i] = a[i];";

// A loop with a step: its variable is the turn, so what it writes is at twice the turn.
pub(crate) const STEPPED: &[u8] =
    b"param N; in x[N]; out y[N]; for (i = 0; i < N; i += 2) y[i] = x[i];";

pub(crate) const BACKWARDS: &[u8] = b"param N; out y[N]; var a[N]; \
    for (i = 0; i < N; i++) a[N - i] = i; for (i = 0; i < N; i++) y[i] = a[3*i - 7];";

pub(crate) const GUARDED: &[u8] = b"param N; out y[N]; var a[N]; \
    for (i = 0; i < N; i++) if (3*i + 1 <= N) a[2*i + 1] = i; for (i = 0; i < N; i++) y[i] = a[i];";

// The loop's value is a constant less three times its turn.
pub(crate) const GUARDED_BELOW: &[u8] = b"param N; out y[N]; var a[N]; \
    for (i = 0; i < N; i++) if (7 - 3*i >= 1) a[9 - 4*i] = i; for (i = 0; i < N; i++) y[i] = a[2*i - 3];";

pub(crate) const TWO_LOOPS: &[u8] = b"param N; out y[N]; var a[N][N]; \
    for (i = 0; i < N; i++) for (j = 0; j <= i; j++) a[5 - 2*j][3*i + 1] = i; \
    for (i = 0; i < N; i++) for (k = 0; k < N; k++) y[i] = a[i + k][2*i - k];";

// One loop in two subscripts, with strides of both signs.
pub(crate) const TWICE: &[u8] = b"param N; out y[N]; var a[N][N]; \
    for (i = 0; i < N; i++) a[2*i][4 - 3*i] = i; \
    for (i = 0; i < N; i++) for (k = 0; k < N; k++) y[i] = a[i + k][4 - k];";

pub(crate) const ONE_OF_TWO: &[u8] = b"param N; out y[N]; var a[N]; \
    for (i = 0; i < N; i++) for (j = 0; j < N; j++) a[-2*j + 4] = i; \
    for (i = 0; i < N; i++) y[i] = a[i];";

pub(crate) const BEFORE: &[u8] =
    b"param N; out y[N]; var a[N]; for (i = 0; i < N; i++) { y[i] = a[i]; \
    for (j = 0; j < N; j++) if (2*j + 1 <= 5) a[2*j] = i; }";

pub(crate) const BOTH: &[u8] = b"param N; var a[N]; \
    for (i = 0; i < N; i++) for (j = 0; j < N; j++) a[2*i] = a[3*j] + a[i + j];";

// A subscript with a stride between two without one.
pub(crate) const BETWEEN: &[u8] = b"param N; out y[N]; var a[N][N][N]; \
    for (i = 0; i < N; i++) for (j = 0; j < N; j++) a[i][3*j][2 - i] = j; \
    for (i = 0; i < N; i++) for (k = 0; k < N; k++) y[i] = a[i][k][2 - i] + a[k][i][1];";

// Made at random, by a script outside. Some cells are read that nobody wrote, and at 4 and more each has two reads or more of
// what an assignment wrote, but for one with one.
pub(crate) static RANDOM: [&[u8]; 12] = [
    b"param N; inout a[N], b[N]; for (i = 0; i < N; i++) if (i >= 4) { a[i + 1] = b[0] + i; } \
    for (i = 0; i < N; i++) { a[2*i + 6] = a[3] + i; b[6] = b[0 - i] + i; } for (i = 0; i < \
    N; i++) a[2*i + 5] = a[6 - i] + i;",
    b"param N; inout a[N], b[N]; for (i = 0; i < N; i++) { a[i + 2] = b[2*i + 5] + i; for (j = \
    i; j < N; j++) { for (k = 0; k < N; k++) { if (3*k >= 6) { a[5] = a[2*k + 4] + i; } a[5 \
    - 2*j] = a[j + k + 1] + j; } for (k = 0; k < N; k += 2) if (3*k >= 2) { b[6 - k] = b[2*j \
    + 4] + k; } } } for (i = 0; i < N; i += 2) a[i - 3] = a[2*i + 4] + i; for (i = 0; i < N; \
    i++) if (3*i >= 5) { b[i + 4] = b[6 - 2*i] + i; }",
    b"param N; inout a[N][N], b[N]; for (i = 0; i < N; i++) for (j = i; j < N; j++) for (k = \
    j; k < N; k++) a[2*k - 1][4 - 2*i] = b[k + j + 2] + k; for (i = 0; i < N; i++) b[2*i + \
    5] = b[2*i] + i; for (i = 0; i < N; i++) a[2*i + 6][i - 3] = a[i + 3][3 - i] + i;",
    b"param N; inout a[N][N], b[N]; for (i = 0; i < N; i += 2) a[3*i + 2][2*i + 1] = b[2 - i] \
    + i; for (i = 0; i < N; i++) a[3 - i][3*i + 6] = b[i - 2] + i;",
    b"param N; inout a[N][N], b[N][N]; for (i = 0; i < N; i += 2) for (j = 0; j < N; j += 2) \
    a[2*j - 3][i - 3] = a[i + 2][2*j] + j; for (i = 0; i < N; i += 2) a[i + 1][1] = a[5 - \
    2*i][6 - 2*i] + i; for (i = 0; i < N; i++) for (j = 0; j < N; j++) b[i + 3][2*j] = a[2 - \
    j][3*j - 1] + j;",
    b"param N; inout a[N], b[N]; for (i = 0; i < N; i++) { a[i + 3] = a[3*i - 2] + i; if (2*i \
    <= 4) { b[3*i + 6] = a[2*i + 5] + i; } } for (i = 0; i < N; i += 2) for (j = 0; j < N; j \
    += 2) for (k = 0; k < N; k++) { a[5 - 2*j] = b[i - j] + i; if (3*i <= 5) { b[2 - k] = \
    b[7 - 2*i] + k; } }",
    b"param N; inout a[N], b[N]; for (i = 0; i < N; i++) { b[8 - 2*i] = a[2*i + 6] + i; if \
    (3*i >= 5) { a[i - 3] = b[i - 1] + i; } } for (i = 0; i < N; i++) { b[2] = a[3*i + 2] + \
    i; for (j = 0; j < N; j++) if (i >= j) { a[2*j - 2] = a[j + 1] + j; } } for (i = 0; i < \
    N; i++) for (j = i; j < N; j++) b[j] = b[2*i - 3] + i;",
    b"param N; inout a[N], b[N][N]; for (i = 0; i < N; i++) if (i >= 1) { b[3*i + 2][i - 3] = \
    a[3*i + 6] + i; } for (i = 0; i < N; i++) b[2*i + 1][2*i + 1] = a[i + 1] + i;",
    b"param N; inout a[N], b[N]; for (i = 0; i < N; i++) if (3*i >= 0) { a[9 - 2*i] = b[4] + \
    i; } for (i = 0; i < N; i += 2) { b[3*i + 3] = b[2*i + 2] + i; a[7 - 2*i] = b[5 - 2*i] + \
    i; }",
    b"param N; inout a[N], b[N]; for (i = 0; i < N; i++) { a[4] = a[4 - 2*i] + i; b[i - 1] = \
    b[3*i] + i; } for (i = 0; i < N; i++) { a[6] = a[i + 6] + i; for (j = 0; j < i + 1; j++) \
    for (k = 0; k < N; k++) { if (2*j >= 0) { a[9 - 2*i] = b[2*k - 2] + i; } b[3*j - 1] = \
    b[2*i + 6] + k; } }",
    b"param N; inout a[N], b[N]; for (i = 0; i < N; i += 2) { if (2*i <= 5) { a[2*i - 3] = a[i \
    + 5] + i; } a[3*i - 3] = b[0] + i; } for (i = 0; i < N; i++) { a[3] = b[i + 5] + i; for \
    (j = i; j < N; j++) for (k = 0; k < N; k++) { if (i <= 4) { b[i - 1] = a[3 - k] + k; } \
    if (k <= j) { b[8 - 2*j] = b[5 - i] + k; } } }",
    b"param N; inout a[N], b[N]; for (i = 0; i < N; i += 2) for (j = 0; j < N; j += 2) { if \
    (3*i >= 0) { a[2*i - 3] = a[j - i + 4] + i; } for (k = 0; k < N; k++) b[k] = b[j + i + \
    1] + k; } for (i = 0; i < N; i += 2) if (i >= 0) { a[i - 3] = b[2*i + 2] + i; } for (i = \
    0; i < N; i++) for (j = i; j < i + 1; j++) b[2*j - 1] = b[2*j + 6] + i;",
];
