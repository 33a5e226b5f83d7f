//! Something that has a name on disk.
use std::marker::Model;

/// Something with its name on disk, as it was given.
#[derive(Debug, Drop)]
pub struct Named<T> {
    pub name: String,
    pub what: T,
}

impl<T> Model for Named<T> {
    ghost use Rattle.std.specs.Prelude.{string_bytes};
    ghost use Rattle.bag_program.specs.Named.{NamedShown};

    ghost Value = { NamedShown T };

    ghost view = { λ it. record { name = string_bytes it.name; what = it.what } };
}
