//! Lists of values, of nets and of instances.

ghost use Rattle.std.specs.Prelude.{◌≡◌, ◌<◌, length, slice_get, slice_set, Some, IsTrue};
ghost use Rattle.std.specs.List.{All};
ghost use Rattle.ca_net.specs.State.{value_at};
ghost use Rattle.ca_every_vector.specs.code.Region.{AreSameOutside};

use ca_net::Trit;

/// The value of a net.
pub(crate) fn at(values: &[Trit], net: usize) -> Trit
    requires { net < length values.now }
    ensures { result ≡ value_at values.now net }
{
    values[net]
}

/// Gives a net a value.
pub(crate) fn give(values: &mut [Trit], net: usize, value: Trit)
    requires { net < length values.old }
    ensures { values.new ≡ slice_set values.old net value }
{
    values[net] = value;
}

/// The entry at a place of a list.
pub(crate) fn entry(list: &[u32], place: usize) -> usize
    requires { place < length list.now }
    ensures { slice_get list.now place ≡ Some result }
{
    list[place] as usize
}

/// Gives the nets of a list the values that they have in another list of values. The lists differ at no other
/// nets, so they are the same then.
pub(crate) fn restore(values: &mut [Trit], from: &[Trit], nets: &[u32])
    requires room { length values.old ≡ length from.now }
    requires known { All (λ net. net < length from.now) nets.now }
    requires same { AreSameOutside from.now values.old nets.now }
    ensures { values.new ≡ from.now }
{
    for place in 0..nets.len() {
        let net = entry(nets, place);
        give(values, net, at(from, net));
    }
}

/// Whether two values are the same.
pub(crate) fn is_same(one: Trit, other: Trit) -> bool
    ensures { IsTrue result → one ≡ other }
{
    one == other
}
