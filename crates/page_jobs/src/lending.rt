//! A value is taken out of its place for a while.
ghost use Rattle.std.specs.Prelude.{◌≡◌};

use core::mem::replace_with;

/// Takes a value and gives one back in its place. `replace_with` says nothing of what its closure
/// writes through a `&mut` that it captures, so the closure there captures a value of a type
/// parameter.
trait Change<T> {
    type Output;

    ghost can_run: { Self → T → Type 0 };

    ghost run_gives: { Self → T → (T × Self.Output) → Type 0 };

    fn run(self, value: T) -> (T, Self::Output)
        requires { can_run self value }
        ensures { run_gives self value result };
}

#[derive(Drop)]
struct Lent<'a, F> {
    f: &'a mut F,
}

impl<'a, T, F: FnMut(T) -> (T, R), R> Change<T> for Lent<'a, F> {
    type Output = (&'a mut F, R);

    ghost can_run = { λ s x. F.pre s.f.now x };

    ghost run_gives = { λ s x r. (r.1.0.ghost_name ≡ s.f.ghost_name)
        × F.step s.f.now x (r.0, r.1.1) r.1.0.now };

    fn run(self, value: T) -> (T, (&'a mut F, R)) {
        let Lent { f } = self;
        let (value, result) = f(value);
        (value, (f, result))
    }
}

fn replace_by<T, S: Change<T, Output = A> + Drop, A>(dest: &mut T, s: S) -> A
    requires { S.can_run s dest.old }
    ensures { S.run_gives s dest.old (dest.new, result) }
{
    replace_with(
        dest,
        s,
        |value: T, s: S| -> (T, A)
            requires { S.can_run s value }
            ensures { S.run_gives s value result }
        { s.run(value) },
    )
}

/// Takes the value out of its place for `f`, and puts there what `f` gives back. The caller learns
/// what `f` wrote through its captures.
pub(crate) fn lend_value<T, R, F: FnMut(T) -> (T, R)>(dest: &mut T, f: &mut F) -> R
    requires { F.pre f.old dest.old }
    ensures { F.step f.old dest.old (dest.new, result) f.new }
{
    let (f, result) = replace_by(dest, Lent { f });
    take_back(f);
    result
}

/// Does nothing. Its use ties the reference that comes back to the one that was lent.
fn take_back<T>(x: &mut T)
    ensures { x.new ≡ x.old }
{}
