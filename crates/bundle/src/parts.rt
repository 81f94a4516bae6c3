ghost use Rattle.std.specs.Prelude.{◌≡◌, ◌<◌, ◌≤◌, ◌==◌, ◌∷◌, ◌++◌, length, position};
ghost use Rattle.std.specs.Option.{option_copied};
ghost use Rattle.bundle.specs.Parts.{after_separator, before_separator, certificate_part, data_part, is_separator, lines_of, source_part};

/// The parts of a bundle. There is a certificate part where there are two separators.
#[derive(Clone, Copy)]
pub struct Parts<'a> {
    pub source: &'a [u8],
    pub array_data: &'a [u8],
    pub certificate: Option<&'a [u8]>,
}

fn is_separator(line: &[u8]) -> bool
    ensures { result ≡ is_separator line.now }
{
    line == b"%%\n".as_slice() || line == b"%%\r\n".as_slice() || line == b"%%".as_slice()
}

fn line_feed(bytes: &[u8]) -> Option<usize>
    ensures { result ≡ position (λ byte. byte == 10) bytes.now }
{
    bytes.iter().position(|byte| *byte == b'\n')
}

/// The first line with the LF that ends it, and what stands after it.
fn split_line(bytes: &[u8]) -> (&[u8], &[u8])
    requires { 0 < length bytes.now }
    ensures lines { lines_of bytes.now ≡ result.0.now ∷ lines_of result.1.now }
    ensures whole { bytes.now ≡ result.0.now ++ result.1.now }
    ensures some { 0 < length result.0.now }
{
    match line_feed(bytes) {
        Some(at) => bytes.split_at(at + 1),
        None => (bytes, &[]),
    }
}

/// Cuts at the first separator, a line that is exactly `%%`.
fn split_at_separator(bytes: &[u8]) -> (&[u8], Option<&[u8]>)
    ensures before { result.0.now ≡ before_separator bytes.now }
    ensures after { option_copied result.1 ≡ after_separator bytes.now }
    ensures within { length result.0.now ≤ length bytes.now }
{
    let mut start = 0;
    let mut rest = bytes;
    while !rest.is_empty() {
        let (line, later) = split_line(rest);
        if is_separator(line) {
            return (&bytes[..start], Some(later));
        }
        start += line.len();
        rest = later;
    }
    (bytes, None)
}

/// The parts of a bundle: the source before the first separator, the data up to the second, and the certificate after
/// it. A separator is a line that is exactly `%%`; LF, CR LF or the end of the bundle ends it.
pub fn parts_of(bundle: &[u8]) -> Parts<'_>
    ensures source { result.source.now ≡ source_part bundle.now }
    ensures between { result.array_data.now ≡ data_part bundle.now }
    ensures certificate { option_copied result.certificate ≡ certificate_part bundle.now }
    ensures within { length result.source.now ≤ length bundle.now }
{
    let (source, rest) = split_at_separator(bundle);
    match rest {
        None => Parts {
            source,
            array_data: &[],
            certificate: None,
        },
        Some(rest) => {
            let (array_data, certificate) = split_at_separator(rest);
            Parts {
                source,
                array_data,
                certificate,
            }
        }
    }
}
