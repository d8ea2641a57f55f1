ghost use Rattle.std.specs.Prelude.{◌≡◌, ℕ, Bool, nat_lt};
ghost use Rattle.order.specs.Least.{TiesShareName};
ghost use Rattle.order.specs.Order.{missing_last, then_by};
ghost use Rattle.std.specs.Cmp.{IsStrictWeakOrder};
ghost use Rattle.std.proofs.Common.{rules};

// A key to choose by: `before x y` says that x goes strictly first.
// `IsStrictWeakOrder` says that no two keys go before one another and that "not before" carries over: every two keys compare, and keys that tie are alike to every other key.
pub trait Key {
    ghost before: { Self → Self → Bool };

    fn goes_before(&self, other: &Self) -> bool
        ensures { result ≡ before self.now other.now };

    ghost ranks: { IsStrictWeakOrder before };
}

// A key that carries the name of what it belongs to: two keys tie only if their names are equal.
// So where different things have different names, the least is the only possible choice.
pub trait NamedKey: Key {
    ghost name: { Self → ℕ };

    ghost apart: { TiesShareName Self.Key.before name };
}

// By std's order. (One impl for all that std orders would overlap those of an Option and of a pair.)
impl Key for u64 {
    ghost before = { nat_lt };

    ghost ranks = { Prim.search rules };

    fn goes_before(&self, other: &u64) -> bool {
        *self < *other
    }
}

// A key that may be missing goes last where it is. By hand, since the order of an Option has none first.
impl<K: Key> Key for Option<K> {
    ghost before = { missing_last K.Key.before };

    ghost ranks = { Prim.search rules };

    fn goes_before(&self, other: &Option<K>) -> bool {
        match (self, other) {
            (Some(x), Some(y)) => x.goes_before(y),
            (Some(_), None) => true,
            (None, _) => false,
        }
    }
}

// A pair goes by its first part, and where that ties by its second. By hand, since its parts are keys with an order of their own.
impl<First: Key, Second: Key> Key for (First, Second) {
    ghost before = { then_by First.Key.before Second.Key.before };

    ghost ranks = { Prim.search rules };

    fn goes_before(&self, other: &(First, Second)) -> bool {
        self.0.goes_before(&other.0)
            || (!other.0.goes_before(&self.0) && self.1.goes_before(&other.1))
    }
}

impl<First: Key, Second: NamedKey> NamedKey for (First, Second) {
    ghost name = { λ x. Second.NamedKey.name x.1 };

    ghost apart = { Prim.search rules };
}
