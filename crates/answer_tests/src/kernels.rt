//! Classical kernels.

use top_calls::Program;

/// Classical kernels: the values of their parameters, their bundles, and their answers, which other programs computed.
pub(crate) static KERNELS: [Program; 12] = [
    // matrix_product
    (
        &["N=4"],
        b"param N; in A[N][N], B[N][N]; out C[N][N]; for (i = 0; i < N; i++) for (j = 0; j < N; j++) { C[i][j] = 0; for (k = 0; k < N; k++) C[i][j] = C[i][j] + A[i][k] * B[k][j]; }\n%%\nA,1,-5,3,-8,-7,8,-6,2,9,-8,7,-3,-8,-7,4,4\nB,-7,-2,-7,8,4,-8,9,-6,-2,9,-8,9,9,3,-8,-2\n",
        b"C,-105,41,-12,81,111,-98,153,-162,-136,100,-167,189,56,120,-71,6\n",
    ),
    // matrix_vector
    (
        &["M=3", "N=5"],
        b"param M, N; in A[M][N], x[N]; out y[M]; var s; for (i = 0; i < M; i++) { s = 0; for (j = 0; j < N; j++) s = s + A[i][j] * x[j]; y[i] = s; }\n%%\nA,-8,8,-5,0,4,-5,8,-6,9,0,8,-4,-6,9,9\nx,-3,2,-6,8,-7\n",
        b"y,42,139,13\n",
    ),
    // transpose
    (
        &["M=3", "N=4"],
        b"param M, N; in A[M][N]; out B[N][M]; for (j = 0; j < N; j++) for (i = 0; i < M; i++) B[j][i] = A[i][j];\n%%\nA,9,-8,-3,6,8,4,1,5,9,5,2,0\n",
        b"B,9,8,9,-8,4,5,-3,1,2,6,5,0\n",
    ),
    // fir
    (
        &["N=8", "T=3"],
        b"param N, T; in x[N], h[T]; out y[N]; for (n = 0; n < N; n++) { y[n] = 0; for (k = 0; k < T; k++) { if (k <= n) y[n] = y[n] + h[k] * x[n - k]; } }\n%%\nx,-2,-4,-2,-7,9,0,7,6\nh,1,5,0\n",
        b"y,-2,-14,-22,-17,-26,45,7,41\n",
    ),
    // prefix_sum
    (
        &["N=9"],
        b"param N; inout s[N]; for (i = 0; i < N; i++) s[i] = s[i - 1] + s[i];\n%%\ns,-7,-6,7,4,-4,1,-5,6,4\n",
        b"s,-7,-13,-6,-2,-6,-5,-10,-4,0\n",
    ),
    // jacobi_1d
    (
        &["N=8", "T=3"],
        b"param N, T; inout a[N]; var b[N]; for (t = 0; t < T; t++) { for (i = 1; i < N - 1; i++) b[i] = a[i - 1] + 2 * a[i] + a[i + 1]; for (i = 1; i < N - 1; i++) a[i] = b[i]; }\n%%\na,-8,-7,8,9,1,1,2,6\n",
        b"a,-8,5,164,273,229,155,105,6\n",
    ),
    // jacobi_2d
    (
        &["N=5", "T=2"],
        b"param N, T; inout a[N][N]; var b[N][N]; for (t = 0; t < T; t++) { for (i = 1; i < N - 1; i++) for (j = 1; j < N - 1; j++) b[i][j] = a[i][j] + a[i - 1][j] + a[i + 1][j] + a[i][j - 1] + a[i][j + 1]; for (i = 1; i < N - 1; i++) for (j = 1; j < N - 1; j++) a[i][j] = b[i][j]; }\n%%\na,9,5,-7,-7,-1,6,-7,-8,0,9,5,0,3,2,-9,5,2,-4,-6,6,-8,-3,0,-5,-2\n",
        b"a,9,5,-7,-7,-1,6,-9,-41,-31,9,5,-3,-38,-37,-9,5,0,-19,-21,6,-8,-3,0,-5,-2\n",
    ),
    // gauss_seidel
    (
        &["N=5", "T=2"],
        b"param N, T; inout a[N][N]; for (t = 0; t < T; t++) for (i = 1; i < N - 1; i++) for (j = 1; j < N - 1; j++) a[i][j] = a[i][j] + a[i - 1][j] + a[i + 1][j] + a[i][j - 1] + a[i][j + 1];\n%%\na,3,3,6,-7,-4,5,3,8,-1,-5,4,8,-1,4,2,3,-2,-5,-7,-4,-5,-2,-2,-9,6\n",
        b"a,3,3,6,-7,-4,5,110,258,378,-5,4,253,775,1428,2,3,373,1406,2992,-4,-5,-2,-2,-9,6\n",
    ),
    // floyd_warshall
    (
        &["N=5"],
        b"param N; inout d[N][N]; for (k = 0; k < N; k++) for (i = 0; i < N; i++) for (j = 0; j < N; j++) d[i][j] = min(d[i][j], d[i][k] + d[k][j]);\n%%\nd,0,3,1000,3,9,1000,0,1000,8,7,1000,8,0,1000,1000,1000,2,1000,0,1000,1000,1000,1000,1000,0\n",
        b"d,0,3,1000,3,9,1000,0,1000,8,7,1000,8,0,16,15,1000,2,1000,0,9,1000,1000,1000,1000,0\n",
    ),
    // lu
    (
        &["N=4"],
        b"param N; inout a[N][N]; for (k = 0; k < N; k++) { for (i = k + 1; i < N; i++) a[i][k] = a[i][k] * a[k][k]; for (i = k + 1; i < N; i++) for (j = k + 1; j < N; j++) a[i][j] = a[i][j] - a[i][k] * a[k][j]; }\n%%\na,2,-1,-1,1,-1,0,-3,-3,3,0,0,0,0,-1,-3,-2\n",
        b"a,2,-1,-1,1,-2,-2,-5,-1,6,-12,-54,-18,0,2,-378,-6804\n",
    ),
    // cholesky
    (
        &["N=4"],
        b"param N; inout a[N][N]; for (j = 0; j < N; j++) { for (k = 0; k < j; k++) a[j][j] = a[j][j] - a[j][k] * a[j][k]; for (i = j + 1; i < N; i++) { for (k = 0; k < j; k++) a[i][j] = a[i][j] - a[i][k] * a[j][k]; a[i][j] = a[i][j] * a[j][j]; } }\n%%\na,-3,2,-1,2,-1,0,3,2,-2,1,-3,-2,1,-1,-2,2\n",
        b"a,-3,2,-1,2,3,-9,3,2,6,153,-23448,-2,-3,-72,-258678336,-66914481515734087\n",
    ),
    // image_pipeline
    (
        &["H=4", "W=5"],
        b"param H, W; in image[H][W]; out edges[H][W]; var blurred[H][W], smooth[H][W]; for (y = 0; y < H; y++) for (x = 1; x < W - 1; x++) blurred[y][x] = image[y][x - 1] + 2 * image[y][x] + image[y][x + 1]; for (y = 1; y < H - 1; y++) for (x = 1; x < W - 1; x++) smooth[y][x] = blurred[y - 1][x] + 2 * blurred[y][x] + blurred[y + 1][x]; for (y = 1; y < H - 1; y++) for (x = 1; x < W - 1; x++) edges[y][x] = max(0, min(255, 16 * image[y][x] - smooth[y][x]));\n%%\nimage,34,1,33,19,5,16,33,23,10,22,14,34,34,32,21,40,14,39,12,15\n",
        b"edges,0,0,0,0,0,0,133,0,0,0,0,100,83,131,0,0,0,0,0,0\n",
    ),
];
