// Tiles on small examples.
use tiles::tile::Tile;

const UPPER: Tile = Tile {
    layer: 0,
    left: 0,
    right: 2,
    top: 0,
    bottom: 2,
};

#[test]
fn corners_do_not_meet(rt: HostRuntime) {
    let corner = Tile {
        layer: 0,
        left: 2,
        right: 4,
        top: 2,
        bottom: 4,
    };
    let below = Tile {
        layer: 0,
        left: 1,
        right: 4,
        top: 2,
        bottom: 4,
    };
    assert!(rt; !UPPER.meets(corner));
    assert!(rt; UPPER.meets(below));
}
