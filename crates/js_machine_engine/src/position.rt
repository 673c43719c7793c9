//! Where a machine stands, in fields of its own.

ghost use Rattle.std.specs.Prelude.{◌≡◌};
ghost use Rattle.js_machine_engine.specs.declared.task.Point.TheVariants as points;

use crate::task::{Point, PointKind};
use js_heap::value::Value;
use js_semantics::form::{Mark, Source, SourceMark};
use std::marker::Model;

/// A point whose parts stand beside one another: what sets it writes only the parts that the new point has.
#[derive(Drop)]
pub struct Position {
    kind: PointKind,
    node: u32,
    value: Value,
    place: SourceMark,
}

impl Model for Position {
    ghost use Rattle.js_machine_engine.specs.declared.task.Point.{Point};
    ghost use Rattle.js_machine_engine.specs.Positions.{point_of};

    ghost Value = { Point };

    ghost view = { λ p. point_of p.kind p.node p.value p.place };
}

/// A place for a point that has none.
const NOWHERE: SourceMark = SourceMark {
    source: Source::Script(0),
    mark: Mark::Beginning,
};

impl Position {
    /// This point.
    #[inline(always)]
    pub fn of(point: Point) -> Position
        ensures { result ≡ point }
    {
        match point {
            Point::Row => Position {
                kind: PointKind::Row,
                node: 0,
                value: Value::Undefined,
                place: NOWHERE,
            },
            Point::Leaf(node) => Position {
                kind: PointKind::Leaf,
                node,
                value: Value::Undefined,
                place: NOWHERE,
            },
            Point::Stands(value, place) => Position {
                kind: PointKind::Stands,
                node: 0,
                value,
                place,
            },
            Point::Done(value) => Position {
                kind: PointKind::Done,
                node: 0,
                value,
                place: NOWHERE,
            },
        }
    }

    /// The point that it is.
    #[inline(always)]
    pub fn get(&self) -> Point
        ensures { result ≡ self.now }
    {
        match self.kind {
            PointKind::Row => Point::Row,
            PointKind::Leaf => Point::Leaf(self.node),
            PointKind::Stands => Point::Stands(self.value, self.place),
            PointKind::Done => Point::Done(self.value),
        }
    }

    /// The innermost task is about to be reduced, whose parts have their values.
    #[inline(always)]
    pub fn set_row(&mut self)
        ensures { self.new ≡ points.Row }
    {
        self.kind = PointKind::Row;
    }

    /// A node without parts is about to be reduced.
    #[inline(always)]
    pub fn set_leaf(&mut self, node: u32)
        ensures { self.new ≡ points.Leaf node }
    {
        self.kind = PointKind::Leaf;
        self.node = node;
    }

    /// A throw stands.
    #[inline(always)]
    pub fn set_stands(&mut self, value: Value, place: SourceMark)
        ensures { self.new ≡ points.Stands value place }
    {
        self.kind = PointKind::Stands;
        self.value = value;
        self.place = place;
    }

    /// All is reduced to a value.
    #[inline(always)]
    pub fn set_done(&mut self, value: Value)
        ensures { self.new ≡ points.Done value }
    {
        self.kind = PointKind::Done;
        self.value = value;
    }
}
