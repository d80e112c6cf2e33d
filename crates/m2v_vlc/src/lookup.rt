//! How tables and look-ups are written down.

/// A look-up by its values in order: before values in brackets stands how many places each of them fills. Where `both` stands
/// there, each is a pair with its code's width, and the pair with the other sign follows it.
macro_rules! lookup {
    (@ [$($done:tt)*] $few:tt both [$(($level:expr, $run:expr, $len:expr)),*], $($rest:tt)*) => {
        lookup!(
            @ [$($done)*] $few each [$(($level, $run, $len), (-$level, $run, $len)),*], $($rest)*
        )
    };
    (@ [$($done:tt)*] 64 each [$($value:expr),*], $($rest:tt)*) => {
        lookup!(@ [$($done)* 16 each [$($value, $value, $value, $value),*],] $($rest)*)
    };
    (@ [$($done:tt)*] 32 each [$($value:expr),*], $($rest:tt)*) => {
        lookup!(@ [$($done)* 16 each [$($value, $value),*],] $($rest)*)
    };
    (@ [$($done:tt)*] $few:tt each $values:tt, $($rest:tt)*) => {
        lookup!(@ [$($done)* $few each $values,] $($rest)*)
    };
    (@ [$(
        $(1 each [$($once:expr),*])?
        $(2 each [$($twice:expr),*])?
        $(4 each [$($four:expr),*])?
        $(8 each [$($eight:expr),*])?
        $(16 each [$($most:expr),*])?,
    )*]) => {
        [$(
            $($($once,)*)?
            $($($twice, $twice,)*)?
            $($($four, $four, $four, $four,)*)?
            $($($eight, $eight, $eight, $eight, $eight, $eight, $eight, $eight,)*)?
            $($(
                $most, $most, $most, $most, $most, $most, $most, $most,
                $most, $most, $most, $most, $most, $most, $most, $most,
            )*)?
        )*]
    };
    ($($groups:tt)*) => { lookup!(@ [] $($groups)*) };
}

/// The rows of values that follow on each other, from the first on: the code of each, and how many bits it has.
macro_rules! rows_from {
    (@ [$($row:expr,)*] $value:expr;) => { [$($row,)*] };
    (@ [$($row:expr,)*] $value:expr; $number:literal $len:literal, $($rest:tt)*) => {
        rows_from!(@ [$($row,)* ($value, $number, $len),] $value + 1; $($rest)*)
    };
    ($first:expr; $($rest:tt)*) => { rows_from!(@ [] $first; $($rest)*) };
}

pub(crate) use lookup;
pub(crate) use rows_from;
