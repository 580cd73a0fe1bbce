//! The debits of what the hardware lists for an operator.
ghost use Rattle.std.specs.Prelude.{◌≡◌};
ghost use Rattle.rely_num.specs.Ops.{is_op};
ghost use Rattle.rely_kernel.specs.Setting.{kinds_of};
ghost use Rattle.chisel_debit.specs.Hardware.{debit_list, kind_debits};

use chisel_debit::DebitList;
use rely_hard::Hardware;
use rely_num::Op;

/// The debits of the operator's kinds, none where the hardware doesn't list the operator.
pub(crate) fn kind_debits<'d>(h: &Hardware, d: &'d DebitList, op: Op) -> &'d [u32]
    requires { d.now ≡ debit_list h.now }
    ensures { result.now ≡ kind_debits h.now.base (kinds_of h.now op) }
{
    for (i, operator) in h.operators.as_slice().iter().enumerate() {
        if same_operator(operator.op, op) {
            return d.ops.as_slice()[i].as_slice();
        }
    }
    &[]
}

fn same_operator(a: Op, b: Op) -> bool
    ensures { result ≡ is_op a b }
{
    a == b
}
