ghost use Rattle.std.specs.Prelude.{◌≡◌, ◌<◌, length, slice_get, slice_index, Some};
ghost use Rattle.rely_kernel.specs.Labels.{InRange, labels_of};
ghost use Rattle.rely_kernel.specs.Rates.{kind_right, rates, right_of};
ghost use Rattle.rely_kernel.specs.Setting.{Fits, kinds_of};
ghost use Rattle.rely_kernel.specs.declared.label.Label.TheVariants as label;
ghost use Rattle.rely_kernel.specs.Valid.{IsValid};

use crate::kernel::{Kernel, Site};
use crate::label::{Label, label_at};
use crate::setting::{Setting, kinds_of};
use rely_hard::{Hardware, MemSpec};
use rely_num::Atto;

/// The probability that a label's step is right under a setting: that of its kind or of its memory, and for a call the
/// bound of the callee's claim in use.
pub fn right_of(k: &Kernel, h: &Hardware, t: &Setting, label: u32) -> Atto
    requires valid { IsValid k.now }
    requires fits { Fits k.now h.now t.now }
    requires in_range { label < labels_of k.now }
    ensures { slice_get (rates h.now k.now t.now) label ≡ Some result }
{
    rate_of(k, h, t, label_at(k, label))
}

/// The same probability by the label itself.
pub fn rate_of(k: &Kernel, h: &Hardware, t: &Setting, label: Label) -> Atto
    requires fits { Fits k.now h.now t.now }
    requires in_range { InRange k.now label }
    ensures { result ≡ right_of h.now k.now t.now label }
{
    match label {
        Label::Op(site) => rate_of_site(k, h, t, site),
        Label::Read(v) => memory_of(k, h, t, v).read,
        Label::Write(v) => memory_of(k, h, t, v).write,
        Label::Call(place) => k.calls.as_slice()[place as usize].bound,
    }
}

fn memory_of<'h>(k: &Kernel, h: &'h Hardware, t: &Setting, v: u32) -> &'h MemSpec
    requires fits { Fits k.now h.now t.now }
    requires in_range { v < length k.now.vars }
    ensures { slice_get h.now.memories (slice_index t.now.memories v) ≡ Some result.now }
{
    let memory = t.memories.as_slice()[v as usize];
    &h.memories.as_slice()[memory as usize]
}

fn rate_of_site(k: &Kernel, h: &Hardware, t: &Setting, site: u32) -> Atto
    requires fits { Fits k.now h.now t.now }
    requires in_range { site < length k.now.sites }
    ensures { result ≡ right_of h.now k.now t.now (label.Op site) }
{
    let i = site as usize;
    rate_of_kind(h, &k.sites.as_slice()[i], t.sites.as_slice()[i])
}

fn rate_of_kind(h: &Hardware, site: &Site, kind: u8) -> Atto
    requires { kind < length (kinds_of h.now site.now.op) }
    ensures { result ≡ kind_right h.now kind site.now }
{
    kinds_of(h, site.op)[kind as usize].right
}
