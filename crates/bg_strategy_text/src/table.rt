//! The fields of a Rollout that a strategy is read from, as a table.
ghost use Rattle.std.specs.Prelude.{◌≡◌, Some};
ghost use Rattle.bg_strategy_text.specs.Table.{field_rule, is_blue_green, needed as needed_in, optional as optional_in};

use std::fmt;
use std::marker::Model;

/// A field of a Rollout (Argo Rollouts, "Rollout Specification"). The variants stand in the order in which
/// the fields are checked.
#[derive(Clone, Copy, Debug, Drop, PartialEq, Eq)]
pub enum Field {
    /// The whole document: an object.
    Document,
    /// `spec` of the document: an object.
    Spec,
    /// `spec.replicas`: 1 to 64; the default is 1.
    Replicas,
    /// `spec.revisionHistoryLimit`; the default is 10.
    RevisionHistoryLimit,
    /// `spec.strategy`: an object.
    Strategy,
    /// `spec.strategy.blueGreen`: an object.
    BlueGreen,
    /// `activeService` of `blueGreen`: the name of a service.
    ActiveService,
    /// `previewService` of `blueGreen`: the name of a service.
    PreviewService,
    /// `previewReplicaCount` of `blueGreen`: at least 1. The default is `replicas`, and a greater number counts as
    /// `replicas`.
    PreviewReplicaCount,
    /// `autoPromotionEnabled` of `blueGreen`; the default is true.
    AutoPromotionEnabled,
    /// `autoPromotionSeconds` of `blueGreen`; the default is 0.
    AutoPromotionSeconds,
    /// `scaleDownDelaySeconds` of `blueGreen`; the default is 30.
    ScaleDownDelaySeconds,
    /// `scaleDownDelayRevisionLimit` of `blueGreen`; the default is no limit.
    ScaleDownDelayRevisionLimit,
    /// `abortScaleDownDelaySeconds` of `blueGreen`; the default is 30.
    AbortScaleDownDelaySeconds,
    /// `drainLimitSeconds` of `blueGreen`; the default is no limit.
    DrainLimitSeconds,
    /// `prePromotionAnalysis` of `blueGreen`: any value.
    PrePromotionAnalysis,
    /// `postPromotionAnalysis` of `blueGreen`: any value.
    PostPromotionAnalysis,
}

/// The fields in the order in which they are checked.
pub(crate) const FIELDS: [Field; 17] = [
    Field::Document,
    Field::Spec,
    Field::Replicas,
    Field::RevisionHistoryLimit,
    Field::Strategy,
    Field::BlueGreen,
    Field::ActiveService,
    Field::PreviewService,
    Field::PreviewReplicaCount,
    Field::AutoPromotionEnabled,
    Field::AutoPromotionSeconds,
    Field::ScaleDownDelaySeconds,
    Field::ScaleDownDelayRevisionLimit,
    Field::AbortScaleDownDelaySeconds,
    Field::DrainLimitSeconds,
    Field::PrePromotionAnalysis,
    Field::PostPromotionAnalysis,
];

/// The object that contains a field; nothing contains the document.
#[derive(Clone, Copy, Drop)]
pub(crate) enum Place {
    Top,
    Document,
    Spec,
    Strategy,
    BlueGreen,
}

/// The kind of value that a field takes.
#[derive(Clone, Copy, Drop)]
pub(crate) enum Kind {
    Object,
    Number { least: u32, most: u32 },
    Service,
    Boolean,
    Anything,
}

/// The greatest number for a field without a limit of its own: the greatest int32 of Kubernetes.
const GREATEST: u32 = 2147483647;

/// A number without a limit of its own.
const NUMBER: Kind = Kind::Number {
    least: 0,
    most: GREATEST,
};

/// A number without a limit of its own, but not 0.
const COUNT: Kind = Kind::Number {
    least: 1,
    most: GREATEST,
};

/// A row of the table. Contracts see it as the entry of `specs/Table.antt`.
#[derive(Drop)]
struct FieldRule {
    name: &'static str,
    place: Place,
    kind: Kind,
    is_needed: bool,
}

impl Model for FieldRule {
    ghost use Rattle.bg_strategy_text.specs.Table.{FieldRule as Rule};

    ghost Value = { Rule };

    ghost view = { λ r. record {
      place = r.place;
      key = r.name.now;
      kind = r.kind;
      is_needed = r.is_needed;
    } };
}

/// A required field.
fn needed(place: Place, name: &'static str, kind: Kind) -> FieldRule
    ensures { result ≡ needed_in place name.now kind }
{
    FieldRule {
        name,
        place,
        kind,
        is_needed: true,
    }
}

/// An optional field.
fn optional(place: Place, name: &'static str, kind: Kind) -> FieldRule
    ensures { result ≡ optional_in place name.now kind }
{
    FieldRule {
        name,
        place,
        kind,
        is_needed: false,
    }
}

/// An optional key of `blueGreen`.
fn key(name: &'static str, kind: Kind) -> FieldRule
    ensures { result ≡ optional_in Place.BlueGreen name.now kind }
{
    optional(Place::BlueGreen, name, kind)
}

impl Field {
    /// The row of the field.
    fn rule(self) -> FieldRule
        ensures { result ≡ field_rule self }
    {
        match self {
            Field::Document => needed(Place::Top, "document", Kind::Object),
            Field::Spec => needed(Place::Document, "spec", Kind::Object),
            Field::Replicas => optional(
                Place::Spec,
                "replicas",
                Kind::Number { least: 1, most: 64 },
            ),
            Field::RevisionHistoryLimit => optional(Place::Spec, "revisionHistoryLimit", NUMBER),
            Field::Strategy => needed(Place::Spec, "strategy", Kind::Object),
            Field::BlueGreen => needed(Place::Strategy, "blueGreen", Kind::Object),
            Field::ActiveService => needed(Place::BlueGreen, "activeService", Kind::Service),
            Field::PreviewService => key("previewService", Kind::Service),
            Field::PreviewReplicaCount => key("previewReplicaCount", COUNT),
            Field::AutoPromotionEnabled => key("autoPromotionEnabled", Kind::Boolean),
            Field::AutoPromotionSeconds => key("autoPromotionSeconds", NUMBER),
            Field::ScaleDownDelaySeconds => key("scaleDownDelaySeconds", NUMBER),
            Field::ScaleDownDelayRevisionLimit => key("scaleDownDelayRevisionLimit", NUMBER),
            Field::AbortScaleDownDelaySeconds => key("abortScaleDownDelaySeconds", NUMBER),
            Field::DrainLimitSeconds => key("drainLimitSeconds", NUMBER),
            Field::PrePromotionAnalysis => key("prePromotionAnalysis", Kind::Anything),
            Field::PostPromotionAnalysis => key("postPromotionAnalysis", Kind::Anything),
        }
    }

    /// The name of the field in the Rollout; `document` for the whole document.
    pub fn name(self) -> &'static str
        ensures { result.now ≡ (field_rule self).key }
    {
        let rule = self.rule();
        rule.name
    }

    pub(crate) fn place(self) -> Place
        ensures { result ≡ (field_rule self).place }
    {
        let rule = self.rule();
        rule.place
    }

    pub(crate) fn kind(self) -> Kind
        ensures { result ≡ (field_rule self).kind }
    {
        let rule = self.rule();
        rule.kind
    }

    pub(crate) fn is_needed(self) -> bool
        ensures { result ≡ (field_rule self).is_needed }
    {
        let rule = self.rule();
        rule.is_needed
    }

    /// Whether the field is a key of `blueGreen`.
    pub(crate) fn is_in_blue_green(self) -> bool
        ensures { result ≡ is_blue_green (field_rule self).place }
    {
        matches!(self.place(), Place::BlueGreen)
    }
}

impl fmt::Display for Field {
    ghost output = { λ f. Some (field_rule f).key };

    fn fmt<W: fmt::Write>(&self, f: &mut fmt::Formatter<W>) -> fmt::Result {
        f.write_str(self.name())
    }
}
