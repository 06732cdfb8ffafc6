// The net count of a list of rotate and reverse calls on one field, call by call: document 01's demand 3 says that the list is one rotation by it.
#![tactic(auto)]

ghost use Rattle.std.specs.Prelude.{◌≡◌, ◌≤◌, ◌<◌, pos};
ghost use Rattle.bits.specs.FieldList.{count_call, rotate, reverse};

// The net count after a rotation by a count. A field with no position has none, and the answer is 0.
pub fn after_rotate(size: u64, net: u64, count: u64) -> u64
    ensures result_value { 0 < size → pos result ≡ count_call size (rotate (pos count)) (pos net) }
    ensures value { size ≡ 0 → result ≡ 0 }
{
    if size == 0 {
        return 0;
    }
    let n = net % size;
    let c = count % size;
    if n < size - c { n + c } else { n - (size - c) }
}

// The net count after a reversal. A number that is no net count of the field gives 0.
pub fn after_reverse(size: u64, net: u64) -> u64
    ensures result_value { net < size → pos result ≡ count_call size reverse (pos net) }
    ensures value { size ≤ net → result ≡ 0 }
{
    if net == 0 {
        return 0;
    }
    if size < net {
        return 0;
    }
    size - net
}
