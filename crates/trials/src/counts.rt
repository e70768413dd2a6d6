// Counts of outcomes, and the chances of the same contracts in a book.
use book::book::Book;
use book::places::Lent;
use book::refusal::Refusal;
use book::shown::Shown;
use reckoning::claims::Claims;
use reckoning::grains::Grains;
use std::test::Fail;
use tree::counting::count;
use tree::pair::Pair;
use tree::refusal::CountRefusal;

fn pair(loss: u32, rate: u32) -> Pair {
    Pair { loss, rate }
}

fn exact(grains: u64) -> Grains {
    Grains {
        lower: grains,
        upper: grains,
    }
}

#[test]
fn four_components_are_counted(rt: HostRuntime) {
    let pairs = [
        pair(4, 100_000),
        pair(1, 400_000),
        pair(1, 200_000),
        pair(2, 300_000),
    ];
    assert_eq!(rt; count(&pairs, 0), Ok(1));
    assert_eq!(rt; count(&pairs, 1), Ok(3));
    assert_eq!(rt; count(&pairs, 2), Ok(5));
    assert_eq!(rt; count(&pairs, 3), Ok(7));
    assert_eq!(rt; count(&pairs, 4), Ok(9));
    assert_eq!(rt; count(&pairs, 5), Ok(11));
    assert_eq!(rt; count(&pairs, 6), Ok(13));
    assert_eq!(rt; count(&pairs, 7), Ok(15));
    assert_eq!(rt; count(&pairs, 8), Ok(16));
    assert_eq!(rt; count(&pairs, u32::MAX), Ok(16));
}

#[test]
fn weight_zero_is_not_counted(rt: HostRuntime) {
    assert_eq!(rt; count(&[], 0), Ok(1));
    assert_eq!(rt; count(&[pair(2, 0)], 2), Ok(1));
    assert_eq!(rt; count(&[pair(2, 1_000_000)], 1), Ok(0));
    assert_eq!(rt; count(&[pair(2, 1_000_000)], 2), Ok(1));
    assert_eq!(rt; count(&[pair(2, 1), pair(3, 0)], 5), Ok(2));
    assert_eq!(rt; count(&[pair(2, 1), pair(3, 1_000_000)], 5), Ok(2));
}

#[test]
fn sixteen_pairs_are_counted(rt: HostRuntime) {
    assert_eq!(rt; count(&[pair(65_535, 1); 16], 1_048_560), Ok(65_536));
    assert_eq!(rt; count(&[pair(65_535, 1); 16], 1_048_559), Ok(65_535));
}

#[test]
fn losses_are_refused_before_rates_before_numbers(rt: HostRuntime) {
    let mut pairs = [pair(1, 1); 17];
    assert_eq!(rt; count(&pairs, 0), Err(CountRefusal::TooMany));
    pairs[0] = pair(1, 1_000_001);
    assert_eq!(rt; count(&pairs, 0), Err(CountRefusal::Rate));
    pairs[16] = pair(0, 1);
    assert_eq!(rt; count(&pairs, 0), Err(CountRefusal::Loss));
    assert_eq!(rt; count(&[pair(65_536, 1)], 0), Err(CountRefusal::Loss));
    assert_eq!(rt; CountRefusal::Loss.number(), 8);
    assert_eq!(rt; CountRefusal::Rate.number(), 9);
    assert_eq!(rt; CountRefusal::TooMany.number(), 19);
}

#[test]
fn four_components_have_their_chances(rt: HostRuntime) -> Result<(), Fail> {
    let mut book = Book::new(rt.alloc())?;
    let mut levels = [0u32; 9];
    let mut bounds = [exact(0); 9];
    let mut values = [None; 9];
    let mut places = Lent::new(&mut levels, &mut bounds, &mut values);
    book.open::<Claims>(8, &[1_000_000], &mut places)?;
    book.enter::<Claims>(1, 4, &[100_000], &mut places)?;
    book.enter::<Claims>(2, 1, &[400_000], &mut places)?;
    book.enter::<Claims>(3, 1, &[200_000], &mut places)?;
    book.enter::<Claims>(4, 2, &[300_000], &mut places)?;
    assert_eq!(rt; levels, [0, 1, 2, 3, 4, 5, 6, 7, 8]);
    assert_eq!(rt;
        bounds,
        [
            exact(302_400_000_000),
            exact(579_600_000_000),
            exact(759_600_000_000),
            exact(878_400_000_000),
            exact(933_600_000_000),
            exact(964_400_000_000),
            exact(984_400_000_000),
            exact(997_600_000_000),
            exact(1_000_000_000_000),
        ]
    );
    Ok(())
}

#[test]
fn a_layer_ends_at_most_one_above_the_ceiling(rt: HostRuntime) -> Result<(), Fail> {
    let mut book = Book::new(rt.alloc())?;
    let mut levels = [0u32; 2];
    let mut bounds = [exact(0); 2];
    let mut values = [None; 2];
    let mut places = Lent::new(&mut levels, &mut bounds, &mut values);
    book.open::<Claims>(6, &[1_000_000], &mut places)?;
    book.enter::<Claims>(1, 5, &[200_000], &mut places)?;
    assert_eq!(rt;
        book.layer::<Claims>(0, 7, &Shown::new(&levels, &bounds, &values))?,
        (1_000_000_000_000, 1_000_000_000_000)
    );
    let longer = book.layer::<Claims>(0, 8, &Shown::new(&levels, &bounds, &values));
    assert!(rt; matches!(longer, Err(Refusal::Range)));
    assert_eq!(rt; Refusal::Range.number(), 17);
    Ok(())
}
