ghost use Rattle.std.specs.Prelude.{◌≡◌, ◌≤◌, ◌*◌, take, length};
ghost use Rattle.std.specs.List.{sum_by};

use crate::nest::Nest;

/// How many reads the first so many statements have together.
pub fn reads_before(nest: &Nest, statements: usize) -> usize
    requires { statements ≤ length nest.now.statements }
    ensures value { result ≡ sum_by (λ s. length s.reads) (take statements nest.now.statements) }
    ensures small { result ≤ 8 * statements }
{
    let mut total = 0;
    for number in 0..statements {
        total += nest.statement(number as u32).reads.len();
    }
    total
}
