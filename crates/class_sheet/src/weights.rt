// The numbers of the classes and their weights, in lent places: each point finds its class by halving, since the numbers rise.
ghost use Rattle.std.specs.Prelude.{◌≡◌, map, ◌+◌, pos, length};
ghost use Rattle.class_sheet.specs.ClassSheet.{class_numbers, class_count};
ghost use Rattle.class_sheet.specs.Code.SheetView.{weights_of, weighed};

// The places that hold their own number, from the lowest up.
fn list_numbers(class_map: &[i64], out: &mut [i64])
    requires { length out.old ≡ class_count class_map.now }
    ensures { out.new ≡ map pos (class_numbers class_map.now) }
{
    let mut k = 0;
    for (p, class) in class_map.iter().enumerate() {
        if *class == p as i64 {
            out[k] = *class;
            k += 1;
        }
    }
}

// How many points bear each of the numbers.
fn count_weights(class_map: &[i64], numbers: &[i64], weights: &mut [i64])
    requires numbers { numbers.now ≡ map pos (class_numbers class_map.now) }
    requires room { length weights.old ≡ length numbers.now }
    ensures { weights.new ≡ weights_of class_map.now }
{
    weights.fill(0);
    for class in class_map {
        if let Ok(r) = numbers.binary_search(class) {
            weights[r] += 1;
        }
    }
}

// The numbers of the classes, k places, and after them their weights.
pub fn weigh(class_map: &[i64], k: usize, list: &mut [i64])
    requires { (k ≡ class_count class_map.now) × (length list.old ≡ k + k) }
    ensures { list.new ≡ weighed class_map.now }
{
    let (numbers, weights) = list.split_at_mut(k);
    list_numbers(class_map, &mut *numbers);
    count_weights(class_map, numbers, weights);
}
