//! The places of the first faults of script files and of texts of acts.
use crate::test_texts::same_at;
use scripts::parse;
use seqpool::read_acts;
use std::alloc::AllocGlobal;
use std::fmt::Debug;
use std::process::Abort;

// Script files, each with its first fault and the place of that.
const FILES: &str = "|NotJson File
{\"shape\":|NotJson File
[]|Field File
{\"shape\":{\"lanes\":1,\"first_page\":2,\"pages\":1,\"last_generation\":4294967295},\"scripts\":[[[\"create\",0],[\"write\",0,\"6869\"],[\"publish\",0]]],\"more\":0}|Field File
{\"scripts\":[[[\"create\",0],[\"write\",0,\"6869\"],[\"publish\",0]]]}|Field Field(Shape)
{\"shape\":{\"lanes\":1,\"first_page\":2,\"pages\":1,\"last_generation\":4294967295},\"script\":[[[\"create\",0],[\"write\",0,\"6869\"],[\"publish\",0]]]}|Field Field(Scripts)
{}|Field Field(Shape)
{\"shape\":1,\"scripts\":[[[\"create\",0],[\"write\",0,\"6869\"],[\"publish\",0]]]}|Field Field(Shape)
{\"shape\":{\"lane\":1,\"first_page\":2,\"pages\":1,\"last_generation\":1},\"scripts\":[[[\"create\",0],[\"write\",0,\"6869\"],[\"publish\",0]]]}|Field Field(Lanes)
{\"shape\":{\"lanes\":1,\"pages\":1,\"last_generation\":1},\"scripts\":[[[\"create\",0],[\"write\",0,\"6869\"],[\"publish\",0]]]}|Field Field(FirstPage)
{\"shape\":{\"lanes\":1,\"first_page\":2,\"tag\":1},\"scripts\":[[[\"create\",0],[\"write\",0,\"6869\"],[\"publish\",0]]]}|Field Field(Pages)
{\"shape\":{\"lanes\":1,\"first_page\":2,\"pages\":1},\"scripts\":[[[\"create\",0],[\"write\",0,\"6869\"],[\"publish\",0]]]}|Field Field(LastGeneration)
{\"shape\":{\"lanes\":1,\"first_page\":2,\"pages\":1,\"last_generation\":1,\"tags\":0},\"scripts\":[[[\"create\",0],[\"write\",0,\"6869\"],[\"publish\",0]]]}|Field Field(Shape)
{\"shape\":{\"lanes\":1,\"first_page\":2,\"pages\":1,\"last_generation\":1,\"tag\":0,\"more\":0},\"scripts\":[[[\"create\",0],[\"write\",0,\"6869\"],[\"publish\",0]]]}|Field Field(Shape)
{\"shape\":{\"lanes\":1.0,\"first_page\":2,\"pages\":1,\"last_generation\":1},\"scripts\":{}}|Field Field(Scripts)
{\"shape\":{\"lanes\":1.0,\"first_page\":-2,\"pages\":1,\"last_generation\":1},\"scripts\":[[[\"create\",0],[\"write\",0,\"6869\"],[\"publish\",0]]]}|Number Field(Lanes)
{\"shape\":{\"lanes\":17,\"first_page\":\"2\",\"pages\":1,\"last_generation\":1},\"scripts\":[[[\"create\",0],[\"write\",0,\"6869\"],[\"publish\",0]]]}|Number Field(FirstPage)
{\"shape\":{\"lanes\":17,\"first_page\":2,\"pages\":null,\"last_generation\":1},\"scripts\":[[[\"create\",0],[\"write\",0,\"6869\"],[\"publish\",0]]]}|Number Field(Pages)
{\"shape\":{\"lanes\":17,\"first_page\":2,\"pages\":1,\"last_generation\":4294967296},\"scripts\":[[[\"create\",0],[\"write\",0,\"6869\"],[\"publish\",0]]]}|Number Field(LastGeneration)
{\"shape\":{\"lanes\":17,\"first_page\":2,\"pages\":1,\"last_generation\":1,\"tag\":-1},\"scripts\":[[[\"create\",0],[\"write\",0,\"6869\"],[\"publish\",0]]]}|Number Field(Tag)
{\"shape\":{\"lanes\":17,\"first_page\":3,\"pages\":1,\"last_generation\":1},\"scripts\":[]}|Shape(Lanes) Field(Lanes)
{\"shape\":{\"lanes\":16,\"first_page\":3,\"pages\":7,\"last_generation\":1},\"scripts\":[[[\"create\",0],[\"write\",0,\"6869\"],[\"publish\",0]]]}|Shape(FirstPage) Field(FirstPage)
{\"shape\":{\"lanes\":16,\"first_page\":1,\"pages\":7,\"last_generation\":0},\"scripts\":[[[\"create\",0],[\"write\",0,\"6869\"],[\"publish\",0]]]}|Shape(Pages) Field(Pages)
{\"shape\":{\"lanes\":16,\"first_page\":1,\"pages\":6,\"last_generation\":0,\"tag\":256},\"scripts\":[[[\"create\",0],[\"write\",0,\"6869\"],[\"publish\",0]]]}|Shape(Generation) Field(LastGeneration)
{\"shape\":{\"lanes\":16,\"first_page\":1,\"pages\":6,\"last_generation\":1,\"tag\":256},\"scripts\":[[[\"create\",0],[\"write\",0,\"6869\"],[\"publish\",0]]]}|Shape(Tag) Field(Tag)
{\"shape\":{\"lanes\":2,\"first_page\":2,\"pages\":1,\"last_generation\":4294967295},\"scripts\":[[[\"create\",0],[\"write\",0,\"6869\"],[\"publish\",0]]]}|Field Scripts
{\"shape\":{\"lanes\":1,\"first_page\":2,\"pages\":1,\"last_generation\":4294967295},\"scripts\":[0,[[\"pop\",0]]]}|Field Scripts
{\"shape\":{\"lanes\":2,\"first_page\":2,\"pages\":1,\"last_generation\":4294967295},\"scripts\":[[[\"create\",0],[\"write\",0,\"6869\"],[\"publish\",0]],{}]}|Field Script { lane: 1 }
{\"shape\":{\"lanes\":2,\"first_page\":2,\"pages\":1,\"last_generation\":4294967295},\"scripts\":[0,0]}|Field Script { lane: 0 }
{\"shape\":{\"lanes\":2,\"first_page\":2,\"pages\":1,\"last_generation\":4294967295},\"scripts\":[[[\"create\",0],[\"write\",0,\"6869\"],[\"publish\",0]],[\"create\",0]]}|Field Line { lane: 1, line: 0 }
{\"shape\":{\"lanes\":1,\"first_page\":2,\"pages\":1,\"last_generation\":4294967295},\"scripts\":[[[\"create\",0],[]]]}|Field Line { lane: 0, line: 1 }
{\"shape\":{\"lanes\":1,\"first_page\":2,\"pages\":1,\"last_generation\":4294967295},\"scripts\":[[[\"create\",0],[\"write\",0],[\"pop\"]]]}|Field Line { lane: 0, line: 1 }
{\"shape\":{\"lanes\":1,\"first_page\":2,\"pages\":1,\"last_generation\":4294967295},\"scripts\":[[[\"create\",0],[\"create\",0,16]]]}|Field Line { lane: 0, line: 1 }
{\"shape\":{\"lanes\":1,\"first_page\":2,\"pages\":1,\"last_generation\":4294967295},\"scripts\":[[[0,\"create\"]]]}|Field Item { lane: 0, line: 0, item: 0 }
{\"shape\":{\"lanes\":2,\"first_page\":2,\"pages\":1,\"last_generation\":4294967295},\"scripts\":[[],[[\"create\",0],[\"create\",0],[\"Create\"]]]}|Act Item { lane: 1, line: 2, item: 0 }
{\"shape\":{\"lanes\":2,\"first_page\":2,\"pages\":1,\"last_generation\":4294967295},\"scripts\":[[[\"create\",0],[\"create\",16]],[[\"pop\",0]]]}|Register Item { lane: 0, line: 1, item: 1 }
{\"shape\":{\"lanes\":2,\"first_page\":2,\"pages\":1,\"last_generation\":4294967295},\"scripts\":[[],[[\"write\",16,\"6\"]]]}|Register Item { lane: 1, line: 0, item: 1 }
{\"shape\":{\"lanes\":1,\"first_page\":2,\"pages\":1,\"last_generation\":4294967295},\"scripts\":[[[\"write\",0,\"6\"],0]]}|Number Item { lane: 0, line: 0, item: 2 }
{\"shape\":{\"lanes\":1,\"first_page\":2,\"pages\":1,\"last_generation\":4294967295},\"scripts\":[[[\"clear\",-1]]]}|Number Item { lane: 0, line: 0, item: 1 }
{\"shape\":{\"lanes\":1,\"first_page\":2,\"pages\":1,\"last_generation\":4294967295},\"scripts\":[[[\"clear\",\"16777216\"]]]}|Register Item { lane: 0, line: 0, item: 1 }
{\"shape\":{\"lanes\":1,\"first_page\":2,\"pages\":1,\"last_generation\":4294967295},\"scripts\":[[[\"get\",0,1],[\"get\",0,\"@16\"]]]}|Register Item { lane: 0, line: 1, item: 2 }
{\"shape\":{\"lanes\":1,\"first_page\":2,\"pages\":1,\"last_generation\":4294967295},\"scripts\":[[[\"get\",0,null]]]}|Number Item { lane: 0, line: 0, item: 2 }";

// First faults of texts of acts with their places, and the texts.
const TEXTS: &str = "ActsLine Line(1)|~
ActsLine Line(1)|
~
ActsLine Line(1)|shape 2 1 1
~
ActsLine Line(1)|shape 2 1 1 1 0 0
0 pop
~
ActsLine Line(1)| shape 2 1 1 4294967295
~
ActsLine Line(1)|0 home 0
shape 2 1 1 4294967295
~
Shape(Lanes) Line(1)|shape 17 3 1 1
0 pop
~
Shape(FirstPage) Line(1)|shape 2 3 7 1
~
Shape(Pages) Line(1)|shape 2 1 7 0
~
Shape(Generation) Line(1)|shape 2 1 1 0 256
~
Shape(Tag) Line(1)|shape 2 1 1 1 256
~
ActsLine Line(2)|shape 2 1 1 4294967295

~
ActsLine Line(2)|shape 2 1 1 4294967295
0 pop 1
0 pop 1
~
ActsLine Line(4)|shape 2 1 1 4294967295
0 home 0
0 home 0

0 home 0
~
ActsLine Line(3)|shape 2 1 1 4294967295
0 clear 1 true
0 home 0\r
~
ActsLine Line(3)|shape 2 1 1 4294967295
0 clear 1 true
0 publish 1 6A 0
0 publish 1 6g 0
~
ActsLine Line(4)|shape 2 1 1 4294967295
0 clear 1 true
0 home 1
0 collect 1,~
ActsLine Line(3)|shape 2 1 1 4294967295
0 home 1
1  home 1~
ActsLine Line(10)|shape 2 1 1 4294967295
0 home 1
0 home 1
0 home 1
0 home 1
0 home 1
0 home 1
0 home 1
0 home 1
0 home 16777216
";

/// A fault and its place are this.
fn are_told<F: Debug, P: Debug, R: Abort + AllocGlobal>(
    rt: &R,
    fault: &F,
    place: &P,
    wanted: &str,
    at: &str,
) {
    let told = format!(in rt.alloc(); "{fault:?} {place:?}").expect(rt, "memory for a text");
    same_at(rt, &told.as_str(), &wanted, at);
}

/// A file is refused with this fault at this place.
fn file_is_refused<R: Abort + AllocGlobal>(rt: &R, file: &str, wanted: &str) {
    let refusal = parse(rt.alloc(), file.as_bytes())
        .err()
        .expect(rt, "a refusal");
    are_told(rt, &refusal.fault, &refusal.place, wanted, file);
}

/// A text is refused with this fault at this place.
fn text_is_refused<R: Abort + AllocGlobal>(rt: &R, text: &str, wanted: &str) {
    let refusal = read_acts(rt.alloc(), text.as_bytes())
        .err()
        .expect(rt, "a refusal");
    are_told(rt, &refusal.fault, &refusal.place, wanted, text);
}

#[test]
fn first_faults_have_places(rt: HostRuntime) {
    for row in FILES.split('\n') {
        let (file, wanted) = row.split_once('|').expect(&rt, "a row");
        file_is_refused(&rt, file, wanted);
    }
    for row in TEXTS.split('~') {
        let (wanted, text) = row.trim_start().split_once('|').expect(&rt, "a row");
        text_is_refused(&rt, text, wanted);
    }
}
