//! Keys, and the pages and places of shapes.
use crate::test_texts::{same, same_at, shows};
use keybits::{Key, Place, Shape, ShapeFault};
use std::process::Abort;

const LARGEST: Shape = Shape {
    lanes: 16,
    first_page: 64,
    pages: 6,
    last_generation: 4294967295,
    tag: 255,
    guests: 0,
};

const WIDEST: Shape = Shape {
    lanes: 64,
    pages: 16,
    ..LARGEST
};

const SMALL: Shape = Shape {
    lanes: 2,
    first_page: 2,
    pages: 2,
    last_generation: 3,
    tag: 7,
    guests: 0,
};

/// The key of a place and a generation is this number.
fn packs<R: Abort>(rt: &R, place: Place, generation: u32, number: u64) {
    let key = Key::pack(place, generation).expect(rt, "a key");
    same(rt, &key.number(), &number);
    same(rt, &Key::unpack(number), &Some((place, generation)));
}

#[test]
fn keys_are_packed_and_unpacked(rt: HostRuntime) {
    for (shard, page, slot, generation, number) in [
        (0, 0, 0, 1, 16777216),
        (1, 0, 0, 1, 16842752),
        (0, 0, 0, 2, 33554432),
        (0, 1, 0, 1, 16781312),
        (15, 0, 0, 1, 17760256),
        (15, 5, 2047, 1, 17782783),
    ] {
        packs(&rt, Place { shard, page, slot }, generation, number);
    }
}

#[test]
fn faults_have_numbers_and_texts(rt: HostRuntime) {
    for (fault, number, text) in [
        (
            ShapeFault::Lanes,
            1,
            "the number of lanes is not from 1 to 16",
        ),
        (
            ShapeFault::FirstPage,
            2,
            "the size of the first page is not 1, 2, 4, 8, 16, 32 or 64",
        ),
        (
            ShapeFault::Pages,
            3,
            "the number of pages is not from 1 to 6",
        ),
        (ShapeFault::Generation, 4, "the last generation is 0"),
        (ShapeFault::Tag, 6, "the tag is over 255"),
    ] {
        same(&rt, &fault.number(), &number);
        shows(&rt, rt.alloc(), &fault, text);
    }
}

/// The pages of a shape have these sizes.
fn has_sizes<R: Abort>(rt: &R, shape: Shape, sizes: &[u32]) {
    assert!(rt;
        shape.guests == 0 && shape.check_wide().is_ok() && sizes.len() == shape.pages as usize
    );
    for page in 0..shape.pages {
        same_at(rt, &shape.page_size(page), &sizes[page as usize], page);
    }
}

/// A shard of the shape, and the shape, have so many places.
fn has_places<R: Abort>(rt: &R, shape: Shape, of_shard: u32, of_all: usize) {
    assert!(rt; shape.guests == 0 && shape.check_wide().is_ok());
    same(rt, &shape.shard_places(), &of_shard);
    same(rt, &shape.all_places(), &of_all);
}

#[test]
fn pages_have_sizes(rt: HostRuntime) {
    let small = Shape {
        first_page: 2,
        ..LARGEST
    };
    has_sizes(&rt, LARGEST, &[64, 128, 256, 512, 1024, 2048]);
    has_sizes(&rt, small, &[2, 4, 8, 16, 32, 64]);
    has_places(&rt, LARGEST, 4032, 64512);
    has_places(&rt, small, 126, 2016);
}

#[test]
fn pages_of_wide_shapes_double_up_to_4096_places(rt: HostRuntime) {
    let one = Shape {
        lanes: 1,
        first_page: 1,
        pages: 14,
        ..LARGEST
    };
    has_sizes(
        &rt,
        WIDEST,
        &[
            64, 128, 256, 512, 1024, 2048, 4096, 4096, 4096, 4096, 4096, 4096, 4096, 4096, 4096,
            4096,
        ],
    );
    has_sizes(
        &rt,
        one,
        &[
            1, 2, 4, 8, 16, 32, 64, 128, 256, 512, 1024, 2048, 4096, 4096,
        ],
    );
    has_places(&rt, WIDEST, 44992, 2879488);
    has_places(&rt, one, 12287, 12287);
}

#[test]
fn shapes_are_narrow_or_wide(rt: HostRuntime) {
    for (lanes, pages, narrow, wide) in [
        (16, 6, Ok(()), Ok(())),
        (17, 6, Err(ShapeFault::Lanes), Ok(())),
        (16, 7, Err(ShapeFault::Pages), Ok(())),
        (64, 16, Err(ShapeFault::Lanes), Ok(())),
        (65, 16, Err(ShapeFault::Lanes), Err(ShapeFault::Lanes)),
        (64, 17, Err(ShapeFault::Lanes), Err(ShapeFault::Pages)),
        (0, 0, Err(ShapeFault::Lanes), Err(ShapeFault::Lanes)),
        (1, 0, Err(ShapeFault::Pages), Err(ShapeFault::Pages)),
    ] {
        let shape = Shape {
            lanes,
            pages,
            ..LARGEST
        };
        same(&rt, &shape.check(), &narrow);
        same(&rt, &shape.check_wide(), &wide);
    }
}

/// The number of a place, which is that of no other.
fn number_of<R: Abort>(rt: &R, place: Place) -> u32 {
    assert!(rt; place.page <= 15 && place.slot <= 4095);
    let number = place.number();
    assert!(rt; number < 16777216);
    same(rt, &Place::of_number(number), &place);
    number
}

/// The place of this number has this index in its shard, and this position in the shape.
fn stands_at<R: Abort>(rt: &R, shape: &Shape, number: u32, index: usize, position: usize) {
    assert!(rt; shape.guests == 0 && shape.check_wide().is_ok() && shape.is_place(number));
    let stands = (shape.index(number), shape.position(number));
    same(rt, &stands, &(index, position));
    assert!(rt; position < shape.all_places());
    same(rt, &shape.place_at(position), &number);
}

/// Numbers of no place of the small shape.
const OUTSIDE: [u32; 4] = [2 * 65536, 2 * 4096, 2, 4096 + 4];

#[test]
fn places_have_positions(rt: HostRuntime) {
    for (shape, shard, page, slot, index, position) in [
        (LARGEST, 0, 0, 0, 0, 0),
        (LARGEST, 0, 1, 70, 134, 134),
        (LARGEST, 1, 0, 3, 3, 4035),
        (LARGEST, 15, 5, 2047, 4031, 64511),
        (WIDEST, 0, 6, 0, 4032, 4032),
        (WIDEST, 0, 6, 4095, 8127, 8127),
        (WIDEST, 1, 7, 0, 8128, 53120),
        (WIDEST, 63, 15, 4095, 44991, 2879487),
    ] {
        let number = number_of(&rt, Place { shard, page, slot });
        stands_at(&rt, &shape, number, index, position);
    }
    for number in OUTSIDE {
        same_at(&rt, &SMALL.is_place(number), &false, number);
    }
}
