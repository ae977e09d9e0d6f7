// A sentence for each refusal: what is wrong, and what is expected.
ghost use Rattle.report.specs.Sentences.{Said};

use layout::refusal::Refusal;

pub fn sentence(refusal: Refusal) -> &'static str
    ensures { Said refusal result.now }
{
    match refusal {
        Refusal::Nodes(_) =>
            "a layout has 1 to 256 nodes of six numbers each: use fewer statements, or cells that stand often",
        Refusal::Number(_) => "a number of a layout is at most 65535",
        Refusal::Node(_) => "a node is of one of the kinds 0 to 7 and names earlier nodes only",
        Refusal::Boxes(_) => "a layout has at most 1024 boxes when its cells are written out",
        Refusal::Regions(_) =>
            "a rule has 1 to 16 regions of three numbers each, and 2 or more where it is 'inside': use fewer operands",
        Refusal::Region(_) =>
            "a layer, a growth or a rule's number is at most 255, and the number of 'wide' and 'apart' is at least 1",
        Refusal::Technology(_) =>
            "a technology has at most 64 layers and 64 joins, and its gate's layer carries",
        Refusal::Spots(_) =>
            "spots are three numbers each, at most 1073741824, and at most 16777216 of them",
        Refusal::Room(_) => "there is too little room for the devices",
        Refusal::Circuit(_) =>
            "a circuit has 1 to 256 nets and at most 256 devices, each of three of its nets",
        Refusal::Text(_) => "this word can't stand here, or something is missing",
    }
}
