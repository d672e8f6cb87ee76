// The streams of a junction (document 01, "The junction file"). Lengths are decimetres unless said; a flag is true where the
// file has 1.
#![tactic(auto)]

ghost use Rattle.std.specs.Prelude.{◌≡◌};
ghost use Rattle.streams.specs.Kinds.{is_car, is_pedestrian_or_tram};

#[derive(Clone, Copy, Debug, PartialEq, Eq)]
pub struct CarFigures {
    // Amber in seconds.
    pub amber: u8,
    // Reaches the zone without stopping at the line first.
    pub flying: bool,
    // Radius of the turn, 0 for straight on.
    pub radius: u16,
    // Width of the approach in centimetres.
    pub width: u16,
    // Rows of a turning stream.
    pub rows: u8,
    // Gradient in percent plus 10.
    pub gradient: u8,
    // 1 good, 2 medium, 3 bad.
    // Stays a number: `saturation_flow` of `flows` answers every value, and an enum would ask more of its callers.
    pub conditions: u8,
    // Shares of the traffic that turn, in percent.
    pub left: u8,
    pub right: u8,
}

#[derive(Clone, Copy, Debug, PartialEq, Eq)]
pub struct TramFigures {
    // Starts from a stop before the line.
    pub stop: bool,
    pub length: u16,
    // Trams an hour.
    pub hourly: u8,
}

#[derive(Clone, Copy, Debug, PartialEq, Eq)]
pub struct PedestrianFigures {
    // Clearing speed in decimetres a second.
    pub speed: u8,
    // Length of the crossing.
    pub crossing: u16,
    // People an hour.
    pub hourly: u16,
    // The time to reach a zone is counted.
    pub counted: bool,
    // Turning cars have green in the same phase.
    pub disturbed: bool,
}

#[derive(Clone, Copy, Debug, PartialEq, Eq)]
pub struct CyclistFigures {
    // The time to reach a zone is counted.
    pub counted: bool,
}

// Pedestrians who cross two carriageways and the island between them in one go.
#[derive(Clone, Copy, Debug, PartialEq, Eq)]
pub struct IslandFigures {
    // The figures of any crossing.
    pub walk: PedestrianFigures,
    // Width of the wider carriageway, B.
    pub wider: u16,
    // Width of the island, u.
    pub island: u16,
    // Length of the packet of people, P.
    pub packet: u16,
}

// Each kind of stream has figures of its own.
#[derive(Clone, Copy, Debug, PartialEq, Eq)]
pub enum Kind {
    Car(CarFigures),
    Tram(TramFigures),
    Pedestrian(PedestrianFigures),
    Cyclist(CyclistFigures),
    Island(IslandFigures),
}

#[derive(Clone, Copy, Debug, PartialEq, Eq)]
pub struct Stream {
    pub phase: u8,
    pub kind: Kind,
}

// Whether a stream is a car's.
pub fn is_car(s: Stream) -> bool
    ensures { result ≡ is_car s.kind }
{
    matches!(s.kind, Kind::Car(_))
}

// Whether a stream is of pedestrians, over an island too, or of trams.
pub fn is_pedestrian_or_tram(s: Stream) -> bool
    ensures { result ≡ is_pedestrian_or_tram s.kind }
{
    matches!(
        s.kind,
        Kind::Tram(_) | Kind::Pedestrian(_) | Kind::Island(_)
    )
}
