// The mirrors of a service.

ghost use Rattle.std.specs.Prelude.{◌≡◌, true};
ghost use Rattle.mirror_ledger.specs.Named.{are_bounded};
ghost use Rattle.mirror_ledger.specs.Raising.{AreNamed};
ghost use Rattle.profile_toml.specs.Laws.{AreMirrors};

use catalogue::Mirror;
use std::marker::Model;

/// One to four mirrors, each valid and no two of one name, which contracts see as their list.
#[derive(Drop)]
pub struct Mirrors {
    list: Vec<Mirror>,
}

impl Model for Mirrors {
    ghost use Rattle.std.specs.Prelude.{List};
    ghost use Rattle.catalogue.specs.declared.mirror.Mirror.{Mirror};
    ghost use Rattle.profile_toml.specs.Laws.{AreMirrors};

    ghost Value = { List Mirror };

    ghost view = { λ mirrors. mirrors.list.items };

    ghost invariant = { λ mirrors. AreMirrors mirrors.list.items };
}

impl Mirrors {
    /// Makes the mirrors of a list of them.
    pub fn new(list: Vec<Mirror>) -> Mirrors
        requires { AreMirrors list.items }
        ensures { result ≡ list.items }
    {
        Mirrors { list }
    }

    /// Borrows the list.
    pub fn as_slice(&self) -> &[Mirror]
        ensures list { result.now ≡ self.now }
        ensures valid { AreMirrors result.now }
    {
        self.list.as_slice()
    }

    /// Gives the list.
    pub fn into_vec(self) -> Vec<Mirror>
        ensures list { result.items ≡ self }
        ensures valid { AreMirrors result.items }
        ensures named { AreNamed result.items }
        ensures bounded { are_bounded result.items ≡ true }
    {
        let Mirrors { list } = self;
        list
    }
}
